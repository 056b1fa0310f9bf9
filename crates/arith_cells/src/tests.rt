//! Tests of the program.

mod output;
mod status;
