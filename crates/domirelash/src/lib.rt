// The static library for callers in C (bindings/include/domirelash.h): thin functions over crates `crows` and `ccalls`. Each call has
// one, as in `house::calls`: a caller in C knows it by its name and arguments.
#![tactic(auto)]

pub mod account_calls;
pub mod given;
pub mod making;
pub mod market_calls;
pub mod open;
