//! The command words of the program of a kernel, by `clap`.
#![tactic(auto)]

mod owned;
mod words;

pub use words::{HelpText, Order, WordsFault, read_words};
