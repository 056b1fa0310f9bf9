//! Events of a relay, told by words.

use iopub_relay::Event;
use listed::{Frames, Octets};
use std::alloc::{AllocError, Global};
use std::str;
use zmtp_wire::{Outlet, WriteFailed};

/// How many octets a writer has room for.
const ROOM: usize = 128;

/// A writer that needs no memory.
#[derive(Clone, Copy, Debug)]
pub(crate) struct Shelf {
    /// What it took, in front.
    octets: [u8; ROOM],
    /// How many octets that is.
    count: usize,
    /// How many octets it takes; then its writes fail.
    room: usize,
}

impl Shelf {
    /// A writer that has taken nothing yet.
    pub(crate) fn new() -> Shelf {
        Shelf {
            octets: [0; ROOM],
            count: 0,
            room: ROOM,
        }
    }

    /// A writer that takes as many octets as these digits say, or if there are none as it has room
    /// for.
    fn of_room(digits: &[u8]) -> Shelf {
        let said = match str::from_utf8(digits) {
            Ok(text) => text.parse::<usize>().ok(),
            Err(_) => None,
        };
        Shelf {
            room: said.unwrap_or(ROOM).min(ROOM),
            ..Shelf::new()
        }
    }

    /// What it took.
    pub(crate) fn taken(&self) -> &[u8] {
        self.octets.get(..self.count).unwrap_or(&[])
    }
}

impl Outlet for Shelf {
    ghost use Rattle.std.specs.Prelude.{None};

    ghost outflow = { λ shelf. record { written = None; failures = 18446744073709551615 } };

    fn write(&mut self, piece: &[u8]) -> Result<usize, WriteFailed> {
        let taken = self.room.saturating_sub(self.count).min(piece.len());
        if taken == 0 && !piece.is_empty() {
            return Err(WriteFailed);
        }
        for octet in &piece[..taken] {
            if let Some(place) = self.octets.get_mut(self.count) {
                *place = *octet;
            }
            self.count = self.count.saturating_add(1);
        }
        Ok(taken)
    }
}

/// The events of words.
pub(crate) fn events_of(alloc: Global, words: &[Vec<u8>]) -> Result<Vec<Event<Shelf>>, AllocError> {
    let mut events = Vec::new(alloc);
    for word in words {
        events.push(event_of(alloc, word)?)?;
    }
    Ok(events)
}

/// The event of a word.
fn event_of(alloc: Global, word: &[u8]) -> Result<Event<Shelf>, AllocError> {
    let (kind, id, rest) = match word {
        [b'=', rest @ ..] => return Ok(Event::Message(frames_of(alloc, rest)?)),
        [kind, digit, rest @ ..] => (*kind, u64::from(*digit) & 15, rest),
        _ => (b'-', 0, word),
    };
    Ok(match kind {
        b'+' => Event::Attach(id, Shelf::of_room(rest)),
        b'?' => Event::Subscribe(id, Octets::new(rest.to_vec(alloc)?)),
        b'!' => Event::Cancel(id, Octets::new(rest.to_vec(alloc)?)),
        b'@' => Event::Pong(id, Octets::new(rest.to_vec(alloc)?)),
        _ => Event::Detach(id),
    })
}

/// The frames that stand between commas.
fn frames_of(alloc: Global, word: &[u8]) -> Result<Frames, AllocError> {
    let mut frames = Vec::new(alloc);
    for frame in word.split(|octet| *octet == b',') {
        frames.push(frame.to_vec(alloc)?)?;
    }
    Ok(Frames::new(frames))
}
