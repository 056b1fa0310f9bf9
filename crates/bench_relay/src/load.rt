//! The subscribers and the messages, and the times that they take.

use iopub_relay::{Event, feed_core};
use listed::{Frames, Octets};
use std::alloc::Global;
use std::io;
use std::rt::Clock;
use std::time::Instant;
use zmtp_wire::{Outlet, WriteFailed};

/// The bodies of a message's five frames, in octets: 400 in all, of which the first is the topic.
const BODIES: [usize; 4] = [9, 64, 200, 119];

/// How many octets its text has: the bodies, and five heads of two.
const TEXT: usize = 410;

/// Counts the octets that it takes.
#[derive(Drop)]
struct Counter {
    /// How many it took.
    octets: u64,
}

impl Outlet for Counter {
    ghost use Rattle.std.specs.Prelude.{None};

    ghost outflow = { λ counter. record { written = None; failures = 0 } };

    fn write(&mut self, piece: &[u8]) -> Result<usize, WriteFailed> {
        self.octets = self.octets.saturating_add(piece.len() as u64);
        Ok(piece.len())
    }
}

/// A message, whose topic is `status..`.
fn message(alloc: Global) -> io::Result<Event<Counter>> {
    let mut frames = Vec::with_capacity(alloc, 5)?;
    frames.push(b"status..".to_vec(alloc)?)?;
    for len in BODIES {
        frames.push(vec![in alloc; b'x'; len]?)?;
    }
    Ok(Event::Message(Frames::new(frames)))
}

/// The events: subscribers with their topics, and messages.
fn events(
    alloc: Global,
    subscribers: u64,
    messages: u64,
    topics: u64,
) -> io::Result<Vec<Event<Counter>>> {
    let mut events = Vec::new(alloc);
    for id in 0..subscribers {
        events.push(Event::Attach(id, Counter { octets: 0 }))?;
        for topic in 0..topics {
            let octets = topic.to_be_bytes().to_vec(alloc)?;
            events.push(Event::Subscribe(id, Octets::new(octets)))?;
        }
        events.push(Event::Subscribe(id, Octets::new(Vec::new(alloc))))?;
    }
    for _ in 0..messages {
        events.push(message(alloc)?)?;
    }
    Ok(events)
}

/// The microseconds that the relay takes, and how many octets its subscribers got.
pub(crate) fn feed_micros<R: Clock + AllocGlobal>(
    rt: &R,
    subscribers: u64,
    messages: u64,
    topics: u64,
) -> io::Result<(u64, u64)> {
    let events = events(rt.alloc(), subscribers, messages, topics)?;
    let start = Instant::now(rt)?;
    let left = feed_core(rt.alloc(), events)?;
    let micros = micros_since(rt, start)?;
    let mut octets = 0u64;
    for (_, counter) in &left {
        octets = octets.saturating_add(counter.octets);
    }
    Ok((micros, octets))
}

/// The microseconds that a plain copy of each text for each subscriber takes.
pub(crate) fn copy_micros<R: Clock + AllocGlobal>(
    rt: &R,
    subscribers: u64,
    messages: u64,
) -> io::Result<u64> {
    let text = vec![in rt.alloc(); b'x'; TEXT]?;
    let mut copy = vec![in rt.alloc(); b'y'; TEXT]?;
    let start = Instant::now(rt)?;
    for _ in 0..messages {
        for _ in 0..subscribers {
            copy.copy_from_slice(&text);
        }
    }
    micros_since(rt, start)
}

/// The microseconds since an instant.
fn micros_since(rt: &impl Clock, start: Instant) -> io::Result<u64> {
    Ok(u64::try_from(start.elapsed(rt)?.as_micros()).unwrap_or(u64::MAX))
}
