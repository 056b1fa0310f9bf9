//! `arith_cells`: runs shell arithmetic. Each line of standard input is a cell, its line feed aside. What a cell writes
//! and its value are printed, or its fault as `ename: evalue`. Variables stay from line to line.
//!
//! The exit status is 0; or 1 where input or output failed, a line is no UTF-8, or memory was refused; or 2 where there
//! are command words, of which the program knows none. A line on standard error tells of 1 and 2.
#![tactic(auto)]

mod cell;
mod lines;
mod status;

use arith_shell::ShellArith;
use lines::run_input;
use status::{Status, judge_words};
use std::env;
use std::io::{self, BufReader, BufWriter};
use std::process::ExitCode;

/// Reads the command words, runs, and tells the status; a line on standard error that can't be written changes nothing.
fn main(rt: HostRuntime) -> ExitCode {
    let status = match judge_words(env::args(&rt)) {
        Some(status) => status,
        None => run(&rt),
    };
    if let Some(line) = status.line() {
        let _ = eprintln!(rt; "{line}");
    }
    ExitCode::from(status.code())
}

/// Runs the cells of standard input.
fn run<R: Input + Print + AllocGlobal>(rt: &R) -> Status {
    let alloc = rt.alloc();
    let Ok(mut reader) = BufReader::new(alloc, rt.reader()) else {
        return Status::Failed;
    };
    let Ok(mut writer) = BufWriter::new(alloc, io::writer(rt)) else {
        return Status::Failed;
    };
    run_input(alloc, &mut ShellArith::new(alloc), &mut reader, &mut writer)
}

#[cfg(test)]
mod tests;
