//! `jkernel-sql`: a Jupyter kernel of SQL, over a database in memory or in a file. It serves the ports of a connection
//! file, replays one peer of the shell channel, or prints the kernelspec, as its command words order.
#![tactic(auto)]

mod in_file;
mod in_memory;
mod laws;
mod texts;
mod words;

use crate::in_file::InFile;
use crate::in_memory::InMemory;
use crate::words::{Database, database_by};
use kernel_program::{command_words, start_on};
use std::io::Write;
use std::process::ExitCode;

#[cfg(test)]
mod tests;

/// Ends the program with a status, and tells a person why.
fn end(rt: &HostRuntime, status: u8, why: &str) -> ExitCode {
    // If even this fails there is nobody left to tell.
    let _ = rt.stderr().write_all(why.as_bytes());
    ExitCode::from(status)
}

/// Starts the program of SQL over the database that its words name.
fn main(rt: HostRuntime) -> ExitCode {
    match database_by(rt.alloc(), command_words(&rt)) {
        Database::InMemory(words) => start_on(
            &rt,
            rt.process(),
            &mut rt.stderr(),
            &InMemory { rt },
            &words,
        ),
        Database::InFile(path, words) => start_on(
            &rt,
            rt.process(),
            &mut rt.stderr(),
            &InFile { rt, path },
            &words,
        ),
        Database::Refused(status, why) => end(&rt, status, why),
    }
}
