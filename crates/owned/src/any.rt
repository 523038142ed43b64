// A model of whichever make.
use super::owned_model::{OwnedKnots, OwnedTable};
use models::joined::Joined;

pub mod margin;

// Two enums, each with its own methods: one generic enum of two makes would have no names for them, by
// which a text and the definitions tell them apart.

// A model that is not joined.
#[derive(Drop)]
pub enum SingleModel {
    Table(OwnedTable),
    Knots(OwnedKnots),
}

#[derive(Drop)]
pub enum AnyModel {
    One(SingleModel),
    Two(Joined<SingleModel, SingleModel>),
}
