// Margin models that own their numbers, and one type for a model of whichever make.
#![tactic(auto)]

pub mod any;
pub mod making;
pub mod owned_model;
