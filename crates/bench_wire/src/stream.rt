//! The text of messages, as it is fed.

ghost use Rattle.std.specs.Iterator.{at_most};

use crate::count::Count;
use std::alloc::{AllocError, Global};

/// The text of a message again and again. Only some of its repetitions are in memory.
#[derive(Debug, Drop)]
pub(crate) struct Stream {
    /// The text of as many messages as are held.
    octets: Vec<u8>,
    /// What one message counts.
    message: Count,
}

/// The largest body behind a size of one octet.
const SHORT: usize = 255;

impl Stream {
    /// Holds so many messages of these bodies, in one block of memory that is taken once.
    pub(crate) fn new(alloc: Global, bodies: &[usize], held: usize) -> Result<Stream, AllocError> {
        let message = message_count(bodies);
        let mut octets = Vec::with_capacity(alloc, message.times(held).text)?;
        for _ in 0..held {
            append_message(bodies, &mut octets)?;
        }
        Ok(Stream { octets, message })
    }

    /// Holds as many messages as every piece of this length needs, wherever in a message it begins.
    pub(crate) fn ring(
        alloc: Global,
        bodies: &[usize],
        piece: usize,
    ) -> Result<Stream, AllocError> {
        let text = message_count(bodies).text.max(1);
        Stream::new(alloc, bodies, (piece / text).saturating_add(2))
    }

    /// The octets that are in memory.
    pub(crate) fn octets(&self) -> &[u8] {
        self.octets.as_slice()
    }

    /// What so many messages count.
    pub(crate) fn count_of(&self, messages: usize) -> Count {
        self.message.times(messages)
    }

    /// The text of so many messages in pieces of this length. None of them is copied.
    pub(crate) fn pieces(&self, messages: usize, piece: usize) -> Pieces<'_> {
        Pieces {
            octets: self.octets.as_slice(),
            text: self.message.text,
            at: 0,
            left: self.count_of(messages).text,
            piece: piece.max(1),
        }
    }
}

/// The pieces of a stream, in order.
#[derive(Debug, Drop)]
pub(crate) struct Pieces<'a> {
    /// The text that is in memory.
    octets: &'a [u8],
    /// The length of one message's text.
    text: usize,
    /// Where the next piece begins.
    at: usize,
    /// How many octets are still to come.
    left: usize,
    /// The length of a piece.
    piece: usize,
}

impl<'a> Iterator for Pieces<'a> {
    type Item = &'a [u8];

    ghost remaining = { λ pieces. at_most pieces.left };

    fn next(&mut self) -> Option<&'a [u8]> {
        let len = self.piece.min(self.left);
        if len == 0 {
            return None;
        }
        self.left -= len;
        let mut end = self.at.saturating_add(len);
        if end > self.octets.len() {
            // the same place in the text, as early as it stands in memory
            self.at = self.at.checked_rem(self.text).unwrap_or(0);
            end = self.at.saturating_add(len);
        }
        let piece = self.octets.get(self.at..end)?;
        self.at = end;
        Some(piece)
    }
}

/// What a message of these bodies counts.
fn message_count(bodies: &[usize]) -> Count {
    let mut count = Count::new();
    count.traffic = 1;
    for body in bodies {
        let head = if *body > SHORT { 9 } else { 2 };
        count.octets = count.octets.saturating_add(*body);
        count.text = count.text.saturating_add(body.saturating_add(head));
    }
    count
}

/// Appends the text of a message of these bodies (RFC 23, "Framing"), without a body of its own in memory.
fn append_message(bodies: &[usize], octets: &mut Vec<u8>) -> Result<(), AllocError> {
    for (place, body) in bodies.iter().enumerate() {
        append_head(place + 1 < bodies.len(), *body, octets)?;
        octets.resize(octets.len().saturating_add(*body), b'x')?;
    }
    Ok(())
}

/// Appends the flags and the size of a frame.
pub(crate) fn append_head(more: bool, body: usize, octets: &mut Vec<u8>) -> Result<(), AllocError> {
    let more = u8::from(more);
    if body > SHORT {
        octets.push(more + 2)?;
        octets.extend_from_slice(&(body as u64).to_be_bytes())
    } else {
        octets.push(more)?;
        octets.push(body as u8)?;
        Ok(())
    }
}
