// Rows of the tables that a caller lends, their limits, and the values that carry those limits.
#![tactic(auto)]

pub mod account;
pub mod checking;
pub mod codes;
pub mod limits;
pub mod row;
pub mod security;
pub mod standing;
