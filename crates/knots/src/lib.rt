// The knot model: a margin model whose numbers stand at twelve residuals only.
#![tactic(auto)]

pub mod interpolation;
pub mod knots;
pub mod model;
pub mod rows;
