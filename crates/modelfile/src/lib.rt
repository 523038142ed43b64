// Reads margin models from a text.
// A text is `table S N` or `knot S N`, then the numbers of its tables in order: rates, tick values,
// changes (or shocks), each by set, benchmark, residual (or knot), and then scenario;
// or it is `joined`, and two such models.
#![tactic(auto)]

pub mod default;
pub mod kind;
pub mod load;
pub mod names;
pub mod numbers;
pub mod read;
pub mod refusal;
