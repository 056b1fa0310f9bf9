//! `test_growths`: single calls of the libraries, of which something outside may refuse the growths. In front of a call
//! ` (` is written, and `)` behind it, and nothing else meanwhile: `tests/programs/growths` refuses what is asked for
//! between the two. Each line of standard input is a case, and is printed with its answer behind it. Empty lines, and
//! those that begin with `#`, are printed as they are.
//!
//! A case is the name of a call and what it is given, each word behind a space. In words, and in the quotes of answers,
//! `%` and two digits are an octet. A fault is told by its number, with the place of an event that
//! isn't allowed behind it, and want of memory that has none by `wanting`. The calls:
//!
//! - `decode PIECE..`: what a decoder makes of each piece; `ready TYPE`: the READY of a socket; `write FRAME..`;
//! - `open FRAME..`, `seal PREFIX HEADER PARENT METADATA CONTENT BUFFER`, both under the key `Jefe`, and
//!   `header SESSION ID DATE TYPE`;
//! - `reply NAME` and `publication NAME`: a content as JSON, and as it is sent; `words NUMBER`: how a fault is told;
//! - `replay READ TEXT`: a replay of a text of which this read fails, or none if it is 0;
//! - `connection FILE`; `door FRAME`, and `door NAME REST` of a command;
//! - `core EVENT..`: of two publishers `0a` publishes `a`, `0` closes the first, and nothing takes; `queue`: one after
//!   another all that publishers and a taker do;
//! - `spared NAME` and what it is given: calls that need no memory;
//! - `list EVENT..` and `pump EVENT..`: what a relay's subscribers get. `+1` comes, `+120` with a
//!   writer that takes twenty octets and then fails; `-1` leaves, `?1topic` asks for a topic,
//!   `!1topic` gives it up, `@1context` asks for a PONG, and `=first,second` is a message.
#![tactic(auto)]

mod clock;
mod contents;
mod envelopes;
mod marks;
mod queue;
mod relay;
mod replay;
mod spared;
mod steps;
mod wire;

use percent_encoding::percent_decode;
use std::alloc::{AllocError, Global};
use std::io;
use std::sync::Wait;

/// Prints each case with its answer.
fn main(rt: HostRuntime) -> io::Result<()> {
    for line in rt.lines(rt.alloc()) {
        let line = line?;
        print!(rt; "{line}")?;
        if !line.is_empty() && !line.starts_with('#') {
            let (name, rest) = line.split_once(' ').unwrap_or((line.as_str(), ""));
            let words = words_of(rt.alloc(), rest)?;
            print!(rt; " ->")?;
            answer(&rt, name, words)?;
        }
        println!(rt; "")?;
    }
    Ok(())
}

/// The octets of each word that a call is given.
fn words_of(alloc: Global, line: &str) -> Result<Vec<Vec<u8>>, AllocError> {
    let mut words = Vec::new(alloc);
    for word in line.split(' ') {
        let mut octets = Vec::new(alloc);
        percent_decode(word.as_bytes()).append_to(&mut octets)?;
        words.push(octets)?;
    }
    Ok(words)
}

/// Answers the case of this name and these words.
fn answer<R: Print + AllocGlobal + Wait + Copy + Drop>(
    rt: &R,
    name: &str,
    words: Vec<Vec<u8>>,
) -> Result<(), AllocError> {
    match name {
        "open" => envelopes::open(rt, words),
        _ => answer_lent(rt, name, &words),
    }
}

/// Answers the case of this name, to whose call the words are lent.
fn answer_lent<R: Print + AllocGlobal + Wait + Copy + Drop>(
    rt: &R,
    name: &str,
    words: &[Vec<u8>],
) -> Result<(), AllocError> {
    match name {
        "seal" => envelopes::seal(rt, words),
        "door" => wire::door(rt, words),
        "reply" => contents::reply(rt, words),
        "publication" => contents::publication(rt, words),
        "words" => contents::words(rt, words),
        "core" => queue::core(rt, words),
        "list" => relay::list(rt, words),
        "pump" => relay::pump(rt, words),
        "spared" => spared::spared(rt, words),
        _ => {
            answer_alone(rt, name, words);
            Ok(())
        }
    }
}

/// Answers the case of this name, where its words are all that its call is given.
fn answer_alone<R: Print + AllocGlobal + Wait + Copy + Drop>(
    rt: &R,
    name: &str,
    words: &[Vec<u8>],
) {
    match name {
        "decode" => wire::decode(rt, words),
        "ready" => wire::ready(rt, words),
        "write" => wire::write(rt, words),
        "header" => envelopes::header(rt, words),
        "connection" => contents::connection(rt, words),
        "queue" => queue::exchange(rt),
        "replay" => replay::replay(rt, words),
        _ => {}
    }
}
