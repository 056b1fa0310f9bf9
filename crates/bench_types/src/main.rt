//! Figures of contents: how long they take to be read and to be written.
//!
//! Without words it prints nothing. A content comes from standard input.
//!
//! - `read TIMES` reads it so many times as the content of an `execute_request`.
//! - `write TIMES` writes it so many times as the text of a stream's content.
//!
//! Either tells the time in microseconds, the best of a few, and how many octets were read or written.
#![tactic(auto)]

use jmsg_types::{ContentFault, Publication, content_text_of_publication, read_request};
use listed::Text;
use std::alloc::Global;
use std::rt::Clock;
use std::time::Instant;
use std::{env, io};

/// How often each time is taken. The best is told.
const ROUNDS: u32 = 5;

/// Reads the command words and standard input, and does the run that they name.
fn main(rt: HostRuntime) -> io::Result<()> {
    let mut words = env::args(&rt)?;
    let _program = words.next();
    let (Some(run), Some(times)) = (words.next(), words.next()) else {
        return Ok(());
    };
    let times = times.as_str().parse::<u32>().unwrap_or(0);
    let text = io::read_to_string(rt.alloc(), rt.reader())?;
    match run.as_str() {
        "read" => tell_reads(&rt, times, text.as_str()),
        "write" => tell_writes(&rt, times, text),
        _ => Err(io::Error::other("no such run: see the program's first lines")),
    }
}

/// Tells how long a content takes to be read so many times.
fn tell_reads<R: Clock + Print + AllocGlobal>(rt: &R, times: u32, content: &str) -> io::Result<()> {
    let mut best = u64::MAX;
    for _ in 0..ROUNDS {
        let start = Instant::now(rt)?;
        if let Err(fault) = read_times(rt.alloc(), times, content.as_bytes()) {
            return Err(refused(rt.alloc(), fault));
        }
        best = best.min(micros_since(rt, start)?);
    }
    let octets = content.len();
    println!(rt; "{best} microseconds, {octets} octets")
}

/// Reads a content so many times.
fn read_times(alloc: Global, times: u32, content: &[u8]) -> Result<(), ContentFault> {
    for _ in 0..times {
        drop(read_request(alloc, "execute_request", content)?);
    }
    Ok(())
}

/// Tells how long a stream's content of this text takes to be written so many times.
fn tell_writes<R: Clock + Print + AllocGlobal>(rt: &R, times: u32, text: String) -> io::Result<()> {
    let stream = Publication::Stream {
        err: false,
        text: Text::new(text),
    };
    let mut best = u64::MAX;
    let mut octets = 0;
    for _ in 0..ROUNDS {
        let start = Instant::now(rt)?;
        octets = match write_times(rt.alloc(), times, &stream) {
            Ok(octets) => octets,
            Err(fault) => return Err(refused(rt.alloc(), fault)),
        };
        best = best.min(micros_since(rt, start)?);
    }
    println!(rt; "{best} microseconds, {octets} octets")
}

/// Writes a content so many times: how many octets it has.
fn write_times(alloc: Global, times: u32, stream: &Publication) -> Result<usize, ContentFault> {
    let mut octets = 0;
    for _ in 0..times {
        octets = content_text_of_publication(alloc, stream)?.len();
    }
    Ok(octets)
}

/// The microseconds since then.
fn micros_since(rt: &impl Clock, start: Instant) -> io::Result<u64> {
    Ok(u64::try_from(start.elapsed(rt)?.as_micros()).unwrap_or(u64::MAX))
}

/// A fault as an error of the program.
fn refused(alloc: Global, fault: ContentFault) -> io::Error {
    match format!(in alloc; "{fault}") {
        Ok(words) => io::Error::other(words.as_str()),
        Err(error) => io::Error::from(error),
    }
}
