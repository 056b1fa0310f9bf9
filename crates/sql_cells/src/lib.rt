//! SQL as an interpreter: a cell is statements, each of which is one step over a connection of `sqlite`.
#![tactic(auto)]

mod cells;
mod cut;
mod dots;
mod fault;
mod file;
mod gaps;
mod inspections;
mod offers;
mod opening;
mod places;
mod rows;
mod shown;
mod statement;
mod tables;
mod values;
mod words;

pub use cells::{Pieces, STEP_LIMIT, Sql};
pub use fault::error_words;
pub use file::FileSql;
pub use statement::{Came, run_statement};
