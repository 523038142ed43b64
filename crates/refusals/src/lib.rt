// Why a call is refused, and how questions are asked.
#![tactic(auto)]

pub mod refusal;
