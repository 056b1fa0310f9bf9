//! The interface of an interpreter: what its calls answer, step by step, and the laws of that. Of languages it has the
//! faults of one of whole numbers, with results of 64 bits; any other raises its own.
#![tactic(auto)]

mod answer;
mod fault;
mod interpreter;

pub use answer::{Completeness, Completion, Info, Next, Output, Stepped};
pub use fault::{InterpFault, fault_words};
pub use interpreter::{Determined, Interpreter};
