//! Figures of the decoder: how fast it reads, beside a plain copy of the same octets, and how much memory it takes.
//!
//! Without words it prints nothing. A message is named by the octets of its frames' bodies, one number a frame.
//!
//! - `whole MESSAGES PIECE BODY..` has the text of so many messages in memory and tells three times in
//!   microseconds, each the best of a few: the decoder's over all pieces, the pieces' alone, and a plain copy's of
//!   the whole text.
//! - `ring MESSAGES PIECE BODY..` reads as many messages from a ring that holds a few of them, and tells the time
//!   and the memory's peak before and after the reading.
//! - `claim SIZE COME` feeds the head of a frame of this size and only so many octets of its body, and tells the
//!   memory's peak before and after.

#![tactic(auto)]

mod count;
mod peak;
mod runs;
mod stream;

use runs::{claim, ring, whole};
use std::alloc::{AllocError, Global};
use std::env::Args;
use std::{env, io};

/// The numbers that the words say, a word that is none as 0.
fn numbers(alloc: Global, words: Args) -> Result<Vec<usize>, AllocError> {
    let mut numbers = Vec::new(alloc);
    for word in words {
        numbers.push(word.as_str().parse::<usize>().unwrap_or(0))?;
    }
    Ok(numbers)
}

/// Does the run that the words name.
fn main(rt: HostRuntime) -> io::Result<()> {
    let mut words = env::args(&rt)?;
    let _program = words.next();
    let Some(run) = words.next() else {
        return Ok(());
    };
    let numbers = numbers(rt.alloc(), words)?;
    match (run.as_str(), numbers.as_slice()) {
        ("whole", [messages, piece, bodies @ ..]) => whole(&rt, *messages, *piece, bodies),
        ("ring", [messages, piece, bodies @ ..]) => ring(&rt, *messages, *piece, bodies),
        ("claim", [size, come]) => claim(&rt, *size, *come),
        _ => Err(io::Error::other("no such run: see the program's first lines")),
    }
}
