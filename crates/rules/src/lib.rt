// The house and its rules: what each account call asks, what it changes, and how accounts settle.
#![tactic(auto)]

pub mod call;
pub mod house;
