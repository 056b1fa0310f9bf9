//! Starting the program of a language: its command words, its streams, and with whom a kernel of it ends.

use crate::language::Language;
use crate::program::run;
use crate::status::tell_line;
use interp_core::Interpreter;
use kernel_limits::looked_after;
use kernel_serve::Until;
use std::env::{Env, VarError};
use std::fs::Files;
use std::io::{self, Input, IsTerminal, Write};
use std::net::{Net, TcpListener, TcpStream};
use std::os::unix::process::parent_id;
use std::process::ExitCode;
use std::random::RandomSource;
use std::rt::Process;
use std::sync::Wait;
use std::thread::Threads;
use std::time::Clock;
use std::{env, fs};

/// Runs the program of a language on the command words and the standard streams, and answers its exit status. This is
/// the body of its `main`, which hands in the system, the process, and standard error. If `JPY_PARENT_PID` names a
/// process, a kernel ends with it.
pub fn start<L, E, F: Write>(rt: &E, process: Process, faults: &mut F, language: &L) -> ExitCode
where
    L: Language,
    <L::Interp as Interpreter>::Cell: Drop + Send + 'static,
    <E as Input>::Reader: IsTerminal,
    E: Env
        + Files
        + AllocGlobal
        + Input
        + Print
        + Net<Listener = TcpListener, Stream = TcpStream>
        + Threads
        + Wait
        + Clock
        + RandomSource
        + Copy
        + Send
        + Sync
        + Drop
        + 'static,
{
    start_on(rt, process, faults, language, &command_words(rt))
}

/// As `start`, on these words in place of the command words: for a program that took some of those itself.
pub fn start_on<L, E, F: Write>(
    rt: &E,
    process: Process,
    faults: &mut F,
    language: &L,
    words: &io::Result<Vec<String>>,
) -> ExitCode
where
    L: Language,
    <L::Interp as Interpreter>::Cell: Drop + Send + 'static,
    <E as Input>::Reader: IsTerminal,
    E: Env
        + Files
        + AllocGlobal
        + Input
        + Print
        + Net<Listener = TcpListener, Stream = TcpStream>
        + Threads
        + Wait
        + Clock
        + RandomSource
        + Copy
        + Send
        + Sync
        + Drop
        + 'static,
{
    let mut reader = rt.reader();
    tell_of_terminal(&reader, words, language.name(), faults);
    let code = run(
        rt,
        rt.alloc(),
        language,
        words,
        runs_until(rt, process),
        &mut reader,
        &mut io::writer(rt),
        faults,
    );
    drop(reader);
    ExitCode::from(code)
}

/// Tells a person at a terminal who gave the program of this name no words what it waits for.
fn tell_of_terminal<R: IsTerminal, F: Write>(
    reader: &R,
    words: &io::Result<Vec<String>>,
    name: &str,
    faults: &mut F,
) {
    if !reader.is_terminal() || !matches!(words, Ok(words) if words.is_empty()) {
        return;
    }
    // If even this fails there is nobody left to tell.
    let _ = tell_line(
        faults,
        name,
        "waits for a replay's hexadecimal digits, and then Ctrl-D; ",
        "the word --help tells what else there is",
    );
}

/// The command words after the program's name.
///
/// # Errors
///
/// `InvalidData` if one isn't UTF-8, or what kept the system from telling them.
pub fn command_words<R: Env + AllocGlobal>(rt: &R) -> io::Result<Vec<String>> {
    let words: Vec<String> = env::args(rt)?.skip(1).collect(rt.alloc())?;
    Ok(words)
}

/// Until when a kernel runs: jupyter's programs name themselves in `JPY_PARENT_PID` to one that is to end with them.
fn runs_until<R: Env + Files + AllocGlobal>(rt: &R, process: Process) -> Until {
    match env::var(rt, "JPY_PARENT_PID") {
        Err(VarError::NotPresent) => Until::Asked,
        Ok(named) if named.as_str() == "0" => Until::Asked,
        Ok(named) => Until::ParentChanges(process, parent_named(rt, process, named.as_str())),
        // What can't be read as a text is there all the same.
        Err(_) => Until::ParentChanges(process, parent_id(process)),
    }
}

/// The number of the process with which a kernel ends that is named.
fn parent_named<R: Files + AllocGlobal>(rt: &R, process: Process, named: &str) -> u32 {
    // Before it is looked whether the named one is gone: what is the parent here isn't there in place of that.
    let parent = parent_id(process);
    match named.parse::<u32>() {
        Ok(number) => looked_after(parent, Some(number), is_gone(rt, number)),
        Err(_) => parent,
    }
}

/// Whether no process has this number, or it ended and nobody has asked how (proc(5), "/proc/pid/status").
fn is_gone<R: Files + AllocGlobal>(rt: &R, number: u32) -> bool {
    match format!(in rt.alloc(); "/proc/{number}/status") {
        Ok(path) => has_ended(rt, path.as_str()),
        Err(_) => false,
    }
}

/// Whether the process has ended whose status this file tells.
fn has_ended<R: Files + AllocGlobal>(rt: &R, path: &str) -> bool {
    match fs::read_to_string(rt, path) {
        Ok(status) => status.as_str().contains("\nState:\tZ"),
        Err(error) => {
            drop(error);
            matches!(fs::exists(rt, path), Ok(false))
        }
    }
}
