// A session: a house with its tables and the margin model in use, and the lines of a script played on it.
#![tactic(auto)]

pub mod obey;
pub mod said;
pub mod session;
