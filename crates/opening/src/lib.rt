// The opening of a house.
#![tactic(auto)]

pub mod opening;
