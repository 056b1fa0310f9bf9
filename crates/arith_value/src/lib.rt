//! The values of POSIX shell arithmetic in 64 bits: operators, variables, and what a statement's tree is worth.
#![tactic(auto)]

mod evaluator;
mod expression;
mod fault;
mod laws;
mod one_pass;
mod operators;
mod variables;

pub use expression::evaluate;
pub use fault::ValueFault;
pub use laws::law_values_are_their_own;
pub use operators::{apply, unary};
pub use variables::Variables;
