// The calls of a house over the tables that its caller lends.
// The two tables stay two parameters, and question 1 a premise of the inner steps: a struct that holds both slices would make
// each step promise besides that it still holds the same two. House and model are two parameters beside them: an account call reads
// the house, a market call changes it, and each call brings its own model.
#![tactic(auto)]

pub mod account;
pub mod calls;
pub mod listing;
pub mod market_calls;
mod maturing;
mod settle;
