// The market: its state, the figures that depend on it alone, and its calls.
#![tactic(auto)]

mod asking;
pub mod call;
mod changing;
pub mod day;
pub mod keeping;
pub mod market;
pub mod state;
pub mod volatility;
