//! Figures of the relay: how long messages take to so many subscribers, beside a plain copy of the same octets.
//!
//! Without words it prints nothing.
//!
//! `feed SUBSCRIBERS MESSAGES TOPICS` has so many subscribers come, each of which subscribes to so many topics that
//! match nothing and to the empty one, and so many messages of 400 octets in five frames. It tells three numbers: the
//! microseconds that the relay takes for all of that, those that it takes without the messages, and those of a plain
//! copy of each text for each subscriber; and then how many octets the subscribers got.

#![tactic(auto)]

mod load;

use load::{copy_micros, feed_micros};
use std::{env, io};

/// The number that a word says, one that is none as 0.
fn number(word: Option<&str>) -> u64 {
    word.map_or(0, |word| word.parse::<u64>().unwrap_or(0))
}

/// Does the run that the words name.
fn main(rt: HostRuntime) -> io::Result<()> {
    let mut words = env::args(&rt)?;
    let _program = words.next();
    let Some(_run) = words.next() else {
        return Ok(());
    };
    let subscribers = words.next();
    let messages = words.next();
    let topics = words.next();
    let subscribers = number(subscribers.as_ref().map(|word| word.as_str()));
    let messages = number(messages.as_ref().map(|word| word.as_str()));
    let topics = number(topics.as_ref().map(|word| word.as_str()));
    let (without, _) = feed_micros(&rt, subscribers, 0, topics)?;
    let (all, octets) = feed_micros(&rt, subscribers, messages, topics)?;
    let copy = copy_micros(&rt, subscribers, messages)?;
    println!(rt; "{all} {without} {copy} {octets}")
}
