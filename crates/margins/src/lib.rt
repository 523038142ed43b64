// The margin figures of one account: marks, charges, collateral, obligation, available, shortfall and flags.
#![tactic(auto)]

pub mod charges;
mod collateral;
pub mod figures;
pub mod flags;
mod marks;
