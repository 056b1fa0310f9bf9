//! Shell arithmetic as an interpreter: cells of statements, words at a cursor, and expressions.
#![tactic(auto)]

mod cursor;
mod fault;
mod laws;
mod shell_arithmetic;
mod statement;

pub use laws::law_words_are_tokens;
pub use shell_arithmetic::{ShellArith, Statements};
