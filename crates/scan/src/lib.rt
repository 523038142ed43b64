// Words and decimal numbers of a text that is held as bytes.
#![tactic(auto)]

pub mod number;
pub mod scan;
