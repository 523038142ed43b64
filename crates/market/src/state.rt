// The plain market state: any numbers may stand in it.
ghost use Rattle.std.specs.Prelude.{◌≡◌};
ghost use Rattle.std.specs.Borrow.{sem};
ghost use Rattle.market.specs.Lending.{LendsFamily};
ghost use Rattle.market.specs.States.{family_state};

use super::day::Day;
use tables::codes::Family;
use tables::row::SecurityRow;

// The published averages of a family: of initial margin and of gross notional.
#[derive(Clone, Copy)]
pub struct Averages {
    pub initial: u64,
    pub gross: u64,
}

// The five triggers and five calm marks of a family, in millionths: two arrays, since five triggers and then five marks
// are published and passed. It is part of the C interface.
#[repr(C)]
#[derive(Clone, Copy)]
pub struct Thresholds {
    pub triggers: [u32; 5],
    pub calm: [u32; 5],
}

// A family: the volatility per cent in force, in tenths; its averages and thresholds once given;
// the last slot checked today (0 for none), how many were, and whether every return was calm at its check.
// An Option of a slot would be no plainer: `slot` is only compared with the next one, and 0 lies below them all.
#[derive(Clone, Copy)]
pub struct FamilyState {
    pub volatility: u32,
    pub averages: Option<Averages>,
    pub thresholds: Option<Thresholds>,
    pub slot: u8,
    pub checks: u8,
    pub calm: bool,
}

// `percent` is the step-up.
#[derive(Clone, Copy)]
pub struct MarketState {
    pub day: Day,
    pub percent: u32,
    pub overnight: FamilyState,
    pub forward: FamilyState,
    pub securities: [SecurityRow; 32],
}

impl MarketState {
    // The state of one of the two families.
    pub(crate) fn family(&self, family: Family) -> FamilyState
        ensures { result ≡ family_state self.now family }
    {
        match family {
            Family::Overnight => self.overnight,
            Family::Forward => self.forward,
        }
    }

    // The same, lent for a change.
    pub(crate) fn family_mut(&mut self, family: Family) -> &mut FamilyState
        ensures* writes_back { sem 𝓛 (LendsFamily self.entry family result) }
        ensures value { result.now ≡ family_state self.old family }
    {
        match family {
            Family::Overnight => &mut self.overnight,
            Family::Forward => &mut self.forward,
        }
    }
}
