// The lines of a script: what each asks for.
#![tactic(auto)]

pub mod command;
mod fields;
pub mod lines;
pub mod parse;
pub mod reason;
mod shapes;
pub mod word;
