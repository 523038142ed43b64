// A script played, and the lines that the run prints.
#![tactic(auto)]

pub mod lines;
pub mod run;
