// Calls for callers in C: records as they are passed, the numbers of a model and their checks, and any call on a plain house.
#![tactic(auto)]

pub mod calls;
pub mod making;
pub mod model;
pub mod numbers;
pub mod open;
pub mod rows;
