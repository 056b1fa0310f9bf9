//! Exchanges of `zmtp_connection` with peers whose octets, reads and writes are told beforehand.
//!
//! A case is a row of words, done one after another:
//!
//! - `%05READY(%00*48)`, `BEAT`: octets, the first of them in digits, or octets that have a name, which the peer sends
//!   behind those before;
//! - `/`: no read gives octets from both sides of it; `cut=N` says the same of place N;
//! - `length=N`, `from=N`: what the peer sends ends at place N, and begins there;
//! - `width=N`, `pace=N`: how many octets a read gives at most, and how many behind the cut;
//! - `fails=N`: the Nth read fails; `endless`: the peer sends what stands behind the cut for ever;
//! - `room=N`, `takes=N`: how many octets the writer takes, and how many at a time; then it takes none, or, where it is
//!   `broken`, fails;
//! - `places=N`: how often the intake puts something; then it says no, or, where it is `wanting`, has no memory;
//! - `last=N`, and `worn`, `memory`, `restart` or `shutdown`: the message at which the server leaves, and how;
//! - `turns=N`: how many reads an exchange may make;
//! - `shake=TYPE`, `echo`, `serve`, `hear`: has the exchange, and tells how it ended;
//! - `written`, `put`, `met`, `identity`, `why`, `asked=N`, `answered=N`, `reads=N`, `unfinished=N`: tells what was
//!   written, what was put into the intake, what socket the peer is and of what identity, in words why a connection
//!   couldn't go on, whether the intake was asked, the server answered and the peer was read so often, and whether so
//!   many octets came after the last whole traffic;
//! - `peer`: a fresh peer that sends nothing yet; `anew`: such a peer and a fresh intake.
//!
//! A case may begin with `@` and places, as `@0..90,95`. Then it is done with each in turn, which `$` stands for, as
//! `$+1` for the one behind it, and places in a row with one answer share a line.

mod bench;
mod clerk;
pub(crate) mod names;
mod peer;
mod shelf;
mod sink;

use crate::connection::bench::Bench;
use crate::connection::names::Names;
use std::alloc::{AllocError, Global};
use std::io;

/// Places in a row at which a case has one answer.
#[derive(Drop)]
struct Run {
    /// The first of them.
    first: u64,
    /// The last of them.
    last: u64,
    /// The answer.
    answer: String,
}

/// What a case comes to at this place.
fn answer_at(alloc: Global, names: &Names, words: &str, place: u64) -> io::Result<String> {
    let mut bench = Bench::new(alloc, names, place);
    for word in words.split_whitespace() {
        bench.read_word(word)?;
    }
    Ok(bench.text)
}

/// Adds the answer at a place to those at the places before it.
fn add(runs: &mut Vec<Run>, place: u64, answer: String) -> Result<(), AllocError> {
    if let Some(run) = runs.last_mut() {
        if run.answer == answer {
            run.last = place;
            return Ok(());
        }
    }
    runs.push(Run {
        first: place,
        last: place,
        answer,
    })?;
    Ok(())
}

/// The first and the last of some places, as `5` or `0..90`.
fn range_of(text: &str) -> io::Result<(u64, u64)> {
    let (first, last) = text.split_once("..").unwrap_or((text, text));
    match (first.parse::<u64>(), last.parse::<u64>()) {
        (Ok(first), Ok(last)) => Ok((first, last)),
        _ => Err(io::Error::other("no places")),
    }
}

/// The answers of a case at these places.
fn runs(alloc: Global, names: &Names, places: &str, words: &str) -> io::Result<Vec<Run>> {
    let mut runs = Vec::new(alloc);
    for part in places.split(',') {
        let (first, last) = range_of(part)?;
        for place in first..=last {
            add(&mut runs, place, answer_at(alloc, names, words, place)?)?;
        }
    }
    Ok(runs)
}

/// Says the answers of a case, each on a line of its own.
///
/// # Errors
///
/// Where a word says nothing, or memory was refused.
pub(crate) fn answer(
    alloc: Global,
    names: &Names,
    case: &str,
    said: &mut String,
) -> io::Result<()> {
    let Some((places, words)) = case.strip_prefix('@').and_then(|case| case.split_once(' ')) else {
        let answer = answer_at(alloc, names, case, 0)?;
        return Ok(write!(said, "\n   {answer}")?);
    };
    for run in runs(alloc, names, places, words)?.as_slice() {
        let Run {
            first,
            last,
            answer,
        } = run;
        if first == last {
            write!(said, "\n    {first}:{answer}")?;
        } else {
            write!(said, "\n    {first}..{last}:{answer}")?;
        }
    }
    Ok(())
}
