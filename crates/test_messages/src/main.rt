//! Messages as data: each line of standard input is a case, and is printed with its answer behind it. An empty line and
//! one that begins with `#` are printed as they are.
//!
//! A case is a word and what it is given, each behind a space; the first lines of `stdin` say which words there are. A
//! case without one of these words is the type of a message, a colon and its content, which is read. In cases `%` and
//! two digits are an octet, and `''` is a word of none.
#![tactic(auto)]

mod connections;
mod contents;
mod envelopes;
mod publications;
mod replies;
mod requests;
mod spelling;

use jmsg_types::{law_each_type_is_found, law_replies_are_named_for_requests};
use std::alloc::{AllocError, Global};
use std::io;

/// Reads standard input and prints each case with its answer.
fn main(rt: HostRuntime) -> io::Result<()> {
    // What the answers of types rest on.
    law_each_type_is_found();
    law_replies_are_named_for_requests();
    let input = io::read_to_string(rt.alloc(), rt.reader())?;
    for line in input.as_str().lines() {
        print_answered(&rt, line)?;
    }
    Ok(())
}

/// Prints a line, and its answer behind it if it is a case.
fn print_answered<R: Print + AllocGlobal>(rt: &R, line: &str) -> io::Result<()> {
    if line.is_empty() || line.starts_with('#') {
        return println!(rt; "{line}");
    }
    let answer = answer(rt.alloc(), line)?;
    println!(rt; "{line} -> {answer}")
}

/// What a case comes to.
fn answer(alloc: Global, line: &str) -> Result<String, AllocError> {
    let (command, words) = line.split_once(' ').unwrap_or((line, ""));
    match command {
        "large" => requests::large(alloc, words),
        "report" => requests::report(alloc, words),
        "type" => requests::type_named(alloc, words),
        "reply" => replies::reply(alloc, words),
        "publication" => publications::publication(alloc, words),
        "fault" => fault(alloc, words),
        _ => answer_frames(alloc, command, words, line),
    }
}

/// What a case of envelopes or of connection files comes to, or else one of a content.
fn answer_frames(
    alloc: Global,
    command: &str,
    words: &str,
    line: &str,
) -> Result<String, AllocError> {
    match command {
        "code" => envelopes::code(alloc, words),
        "seal" => envelopes::seal(alloc, words),
        "open" => envelopes::open(alloc, words),
        "header" => envelopes::header(alloc, words),
        "file" => connections::file(alloc, words),
        "fields" => connections::fields(alloc, words),
        _ => requests::read(alloc, line),
    }
}

/// How the fault with a number is told, if no case comes to it: want of memory.
fn fault(alloc: Global, number: &str) -> Result<String, AllocError> {
    match number {
        "24" => envelopes::told(alloc, jmsg_envelope::EnvelopeFault::OutOfMemory),
        "33" => contents::told(alloc, jmsg_types::ContentFault::OutOfMemory),
        "45" => connections::told(alloc, conn_file::ConnFault::OutOfMemory),
        _ => String::from_str(alloc, "no such fault"),
    }
}
