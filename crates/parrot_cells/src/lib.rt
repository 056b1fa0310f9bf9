//! The language of a parrot as an interpreter. docs/LANGUAGES.md goes through it.
#![tactic(auto)]

mod parrot;

pub use parrot::{Parrot, Saying};

#[cfg(test)]
mod tests;
