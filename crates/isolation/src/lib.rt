// Isolation over every list of calls: definitions and the law, which stands on the contracts of the calls. Here are its examples.
#![tactic(auto)]

pub mod examples;
