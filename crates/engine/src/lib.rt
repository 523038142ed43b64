// Any call on a house, and lists of calls. House, model and both tables are parameters of their own, as in crate `house`.
#![tactic(auto)]

pub mod answer;
pub mod play;
pub mod replay;
