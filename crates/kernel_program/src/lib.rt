//! The program of a language: a whole Jupyter kernel. It serves the ports of a connection file, replays one peer of the
//! shell channel, or prints the kernelspec, as its command words order.
#![tactic(auto)]

mod language;
mod laws;
mod program;
mod reason;
mod replay;
mod serving;
mod starting;
mod status;

pub use language::{BeginFault, Language};
pub use laws::law_program_is_started;
pub use program::run;
pub use replay::run_replay;
pub use serving::tell_of_clock;
pub use starting::{command_words, start, start_on};
pub use status::end_status;
