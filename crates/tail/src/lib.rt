// The k highest of a row of entries, for every kind of entry whose order compares any two.
#![tactic(auto)]

pub mod keeper;
pub mod order;
pub mod ratio;
