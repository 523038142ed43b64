// One account: how it settles, what a call on it asks and changes, and what the call would leave.
#![tactic(auto)]

mod asking;
pub mod book;
pub mod cover;
pub mod preview;
pub mod settle;
mod trades;
