//! Events as plain values, the writers of their subscribers, and what is compared with what these got.

use iopub_relay::Event;
use listed::{Frames, Octets};
use std::alloc::{AllocError, Global};
use zmtp_wire::{Outlet, WriteFailed};

/// How the write of a writer is that goes wrong.
#[derive(Clone, Copy, Debug)]
pub(crate) enum Last {
    /// It fails.
    Fails,
    /// It takes nothing.
    TakesNothing,
}

/// What a writer takes: so many octets a write, and so many writes.
#[derive(Clone, Copy, Debug)]
pub(crate) struct Takes {
    /// How many octets a write takes.
    pub(crate) width: usize,
    /// How many writes are taken before one that isn't. All after that are taken.
    pub(crate) writes: usize,
    /// How that one is.
    pub(crate) last: Last,
}

/// All is taken.
pub(crate) const ALL: Takes = Takes {
    width: usize::MAX,
    writes: usize::MAX,
    last: Last::Fails,
};

/// A writer that keeps what it takes.
#[derive(Drop)]
pub(crate) struct Narrow {
    /// What was taken.
    pub(crate) octets: Vec<u8>,
    /// What it still takes.
    takes: Takes,
}

impl Narrow {
    /// A writer that has taken nothing yet.
    pub(crate) fn new(alloc: Global, takes: Takes) -> Narrow {
        Narrow {
            octets: Vec::new(alloc),
            takes,
        }
    }
}

impl Outlet for Narrow {
    ghost use Rattle.std.specs.Prelude.{None};

    ghost outflow = { λ narrow. record { written = None; failures = 18446744073709551615 } };

    fn write(&mut self, piece: &[u8]) -> Result<usize, WriteFailed> {
        if self.takes.writes == 0 {
            self.takes.writes = usize::MAX;
            return match self.takes.last {
                Last::Fails => Err(WriteFailed),
                Last::TakesNothing => Ok(0),
            };
        }
        self.takes.writes -= 1;
        let count = self.takes.width.min(piece.len());
        match self.octets.extend_from_slice(&piece[..count]) {
            Ok(()) => Ok(count),
            Err(_) => Err(WriteFailed),
        }
    }
}

/// An event as a plain value.
#[derive(Clone, Copy)]
pub(crate) enum Step<'a> {
    /// A message of these frames.
    Message(&'a [&'a [u8]]),
    /// A subscriber comes, with a writer that takes so much.
    Attach(u64, Takes),
    /// A subscriber leaves.
    Detach(u64),
    /// A subscriber asks for a topic.
    Subscribe(u64, &'a [u8]),
    /// A subscriber gives a topic up.
    Cancel(u64, &'a [u8]),
    /// A subscriber asks for a PONG of this context.
    Pong(u64, &'a [u8]),
}

/// The frames of a message.
pub(crate) fn frames_of(alloc: Global, bodies: &[&[u8]]) -> Result<Frames, AllocError> {
    let mut frames = Vec::new(alloc);
    for body in bodies {
        frames.push(body.to_vec(alloc)?)?;
    }
    Ok(Frames::new(frames))
}

/// Octets that are owned.
fn octets_of(alloc: Global, octets: &[u8]) -> Result<Octets, AllocError> {
    Ok(Octets::new(octets.to_vec(alloc)?))
}

/// The event of a step.
fn event_of(alloc: Global, step: Step<'_>) -> Result<Event<Narrow>, AllocError> {
    Ok(match step {
        Step::Message(bodies) => Event::Message(frames_of(alloc, bodies)?),
        Step::Attach(id, takes) => Event::Attach(id, Narrow::new(alloc, takes)),
        Step::Detach(id) => Event::Detach(id),
        Step::Subscribe(id, topic) => Event::Subscribe(id, octets_of(alloc, topic)?),
        Step::Cancel(id, topic) => Event::Cancel(id, octets_of(alloc, topic)?),
        Step::Pong(id, context) => Event::Pong(id, octets_of(alloc, context)?),
    })
}

/// Adds the event of a step.
pub(crate) fn add(
    alloc: Global,
    events: &mut Vec<Event<Narrow>>,
    step: Step<'_>,
) -> Result<(), AllocError> {
    events.push(event_of(alloc, step)?)?;
    Ok(())
}

/// Adds the events of steps.
fn add_all(
    alloc: Global,
    events: &mut Vec<Event<Narrow>>,
    steps: &[Step<'_>],
) -> Result<(), AllocError> {
    for step in steps {
        add(alloc, events, *step)?;
    }
    Ok(())
}

/// The events of steps.
pub(crate) fn events_of(
    alloc: Global,
    steps: &[Step<'_>],
) -> Result<Vec<Event<Narrow>>, AllocError> {
    let mut events = Vec::new(alloc);
    add_all(alloc, &mut events, steps)?;
    Ok(events)
}

/// Whether these are the subscribers that are left, each with what it got.
pub(crate) fn are_left(left: &[(u64, Narrow)], wanted: &[(u64, &[u8])]) -> bool {
    for (one, (id, octets)) in left.iter().zip(wanted) {
        if one.0 != *id || one.1.octets.as_slice() != *octets {
            return false;
        }
    }
    left.len() == wanted.len()
}

/// The octets of the first subscriber of the standard list, behind all four messages: 65.
pub(crate) const EVERYTHING: &[u8] = b"\x01\x0dstream.stdout\x00\x01x\x01\x06status\x00\x01y\
    \x01\x0dstream.stdout\x00\x01z\x01\x0dstream.stdout\x00\x01w";

/// The octets of the second, which holds `stream` twice and gives it up twice: 36.
pub(crate) const STREAMS: &[u8] = b"\x01\x0dstream.stdout\x00\x01x\x01\x0dstream.stdout\x00\x01z";

/// The standard list behind its two subscribers: one asks for everything, and one for streams, which it gives up.
const STANDARD: [Step; 9] = [
    Step::Subscribe(1, b""),
    Step::Subscribe(2, b"stream"),
    Step::Subscribe(2, b"stream"),
    Step::Message(&[b"stream.stdout", b"x"]),
    Step::Cancel(2, b"stream"),
    Step::Message(&[b"status", b"y"]),
    Step::Message(&[b"stream.stdout", b"z"]),
    Step::Cancel(2, b"stream"),
    Step::Message(&[b"stream.stdout", b"w"]),
];

/// The standard list, with writers that take so much.
pub(crate) fn standard(
    alloc: Global,
    first: Takes,
    second: Takes,
) -> Result<Vec<Event<Narrow>>, AllocError> {
    let mut events = events_of(alloc, &[Step::Attach(1, first), Step::Attach(2, second)])?;
    add_all(alloc, &mut events, &STANDARD)?;
    Ok(events)
}

/// The ends of whole texts in the octets of the first subscriber: how many writes are taken, and how many octets these
/// are.
const WHOLE_TEXTS: [(usize, usize); 5] = [(0, 0), (1, 18), (2, 29), (3, 47), (4, 65)];

/// Writers of the first subscriber, each with the octets that it takes of 65. They take an octet a write or a whole
/// text, up to a write of each place that fails or takes nothing, or all.
pub(crate) fn writers_that_end(alloc: Global) -> Result<Vec<(Takes, usize)>, AllocError> {
    let mut writers = Vec::new(alloc);
    for last in [Last::Fails, Last::TakesNothing] {
        for writes in 0..=66 {
            let width = 1;
            let takes = Takes {
                width,
                writes,
                last,
            };
            writers.push((takes, writes.min(65)))?;
        }
        for (writes, octets) in WHOLE_TEXTS {
            let width = usize::MAX;
            let takes = Takes {
                width,
                writes,
                last,
            };
            writers.push((takes, octets))?;
        }
    }
    Ok(writers)
}
