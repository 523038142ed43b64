// Margin models: what a model means, the makes of it, and the checks before a making.
#![tactic(auto)]

pub mod check;
pub mod joined;
pub mod laid;
pub mod layout;
pub mod model;
pub mod numbers;
pub mod refusal;
pub mod sound;
pub mod table;
