// Rows for callers in C: an account, a security and a house as plain numbers; and the house of the engine that one stands for.
// Each pair `X_of`, `X_numbers` is two functions and no `From`: their names say which way a row goes, and are those of its definitions.
#![tactic(auto)]

pub mod families;
pub mod houses;
pub mod row;
pub mod securities;
