// An event file played on a house, and the lines that the run prints.
#![tactic(auto)]

pub mod calls;
pub mod input;
pub mod lines;
pub mod play;
