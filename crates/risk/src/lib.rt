// The risk of trades: groups, losses over the scenarios, value at risk, and the initial margin of one benchmark.
#![tactic(auto)]

mod adding;
pub mod figures;
pub mod gather;
pub mod grouping;
mod initial;
mod losses;
pub mod money;
pub mod quotes;
mod sums;
pub mod trade;
