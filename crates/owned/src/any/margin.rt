// What a model of whichever make answers.
ghost use Rattle.std.specs.Prelude.{◌≡◌};
ghost use Rattle.owned.specs.Any.{single_of, single_lawful, any_of, any_lawful};

use super::{AnyModel, SingleModel};
use models::model::MarginModel;

impl MarginModel for SingleModel {
    ghost meaning = { single_of };

    ghost lawful = { single_lawful };

    fn sets(&self) -> u32 {
        match self {
            SingleModel::Table(m) => m.sets(),
            SingleModel::Knots(m) => m.sets(),
        }
    }

    fn scenarios(&self) -> u32 {
        match self {
            SingleModel::Table(m) => m.scenarios(),
            SingleModel::Knots(m) => m.scenarios(),
        }
    }

    fn rate(&self, set: u32, benchmark: u32, residual: u32) -> u32 {
        match self {
            SingleModel::Table(m) => m.rate(set, benchmark, residual),
            SingleModel::Knots(m) => m.rate(set, benchmark, residual),
        }
    }

    fn tick(&self, set: u32, benchmark: u32, residual: u32) -> u32 {
        match self {
            SingleModel::Table(m) => m.tick(set, benchmark, residual),
            SingleModel::Knots(m) => m.tick(set, benchmark, residual),
        }
    }

    fn change(&self, set: u32, benchmark: u32, residual: u32, scenario: u32) -> i32 {
        match self {
            SingleModel::Table(m) => m.change(set, benchmark, residual, scenario),
            SingleModel::Knots(m) => m.change(set, benchmark, residual, scenario),
        }
    }

    fn changes(&self, set: u32, benchmark: u32, residual: u32, room: &mut [i32]) -> Option<&[i32]> {
        match self {
            SingleModel::Table(m) => m.changes(set, benchmark, residual, room),
            SingleModel::Knots(m) => m.changes(set, benchmark, residual, room),
        }
    }
}

impl MarginModel for AnyModel {
    ghost meaning = { any_of };

    ghost lawful = { any_lawful };

    fn sets(&self) -> u32 {
        match self {
            AnyModel::One(m) => m.sets(),
            AnyModel::Two(m) => m.sets(),
        }
    }

    fn scenarios(&self) -> u32 {
        match self {
            AnyModel::One(m) => m.scenarios(),
            AnyModel::Two(m) => m.scenarios(),
        }
    }

    fn rate(&self, set: u32, benchmark: u32, residual: u32) -> u32 {
        match self {
            AnyModel::One(m) => m.rate(set, benchmark, residual),
            AnyModel::Two(m) => m.rate(set, benchmark, residual),
        }
    }

    fn tick(&self, set: u32, benchmark: u32, residual: u32) -> u32 {
        match self {
            AnyModel::One(m) => m.tick(set, benchmark, residual),
            AnyModel::Two(m) => m.tick(set, benchmark, residual),
        }
    }

    fn change(&self, set: u32, benchmark: u32, residual: u32, scenario: u32) -> i32 {
        match self {
            AnyModel::One(m) => m.change(set, benchmark, residual, scenario),
            AnyModel::Two(m) => m.change(set, benchmark, residual, scenario),
        }
    }

    fn changes(&self, set: u32, benchmark: u32, residual: u32, room: &mut [i32]) -> Option<&[i32]> {
        match self {
            AnyModel::One(m) => m.changes(set, benchmark, residual, room),
            AnyModel::Two(m) => m.changes(set, benchmark, residual, room),
        }
    }
}
