//! Figures of the queue: how many items a second go through it, beside a bounded channel and a list behind a lock, and
//! how long an item is on its way.
//!
//! Without words it prints nothing.
//!
//! - `rate LINE KIND PUBLISHERS ITEMS` has so many publishers in threads publish so many items each, which one taker
//!   takes, and tells the time in microseconds. LINE is `queue`, `channel` or `lock`, KIND is `word` or `message`.
//! - `way LINE ITEMS` has one publisher publish so many items, with a pause before each, while the taker looks for the
//!   next again and again; it tells the median and the last but a hundredth of the times on the way, in nanoseconds.

#![tactic(auto)]

mod lines;
mod load;
mod runs;

use load::Message;
use runs::{rate, way};
use std::{env, io};

/// Does the run that the words name.
fn main(rt: HostRuntime) -> io::Result<()> {
    let mut words = env::args(&rt)?;
    let _program = words.next();
    let (Some(run), Some(line)) = (words.next(), words.next()) else {
        return Ok(());
    };
    let third = words.next();
    let fourth = words.next();
    let fifth = words.next();
    let third = third.as_ref().map_or("", |word| word.as_str());
    let fourth = fourth
        .as_ref()
        .map_or(0, |word| word.as_str().parse::<u64>().unwrap_or(0));
    let fifth = fifth
        .as_ref()
        .map_or(0, |word| word.as_str().parse::<u64>().unwrap_or(0));
    match (run.as_str(), third) {
        ("rate", "word") => {
            let micros = rate::<u64, HostRuntime>(rt, line.as_str(), fourth, fifth)?;
            println!(rt; "{micros}")
        }
        ("rate", "message") => {
            let micros = rate::<Message, HostRuntime>(rt, line.as_str(), fourth, fifth)?;
            println!(rt; "{micros}")
        }
        ("way", items) => {
            let (median, late) = way(rt, line.as_str(), items.parse::<u64>().unwrap_or(0))?;
            println!(rt; "{median} {late}")
        }
        _ => Err(io::Error::other("no such run: see the program's first lines")),
    }
}
