//! What is read from.

use std::alloc::Global;
use std::io::{self, ErrorKind, Read};

/// A peer whose octets and reads are told beforehand.
#[derive(Drop)]
pub(crate) struct Peer {
    /// What it sends.
    pub(crate) octets: Vec<u8>,
    /// How many of them were read.
    pub(crate) place: usize,
    /// No read gives octets from both sides of this place.
    pub(crate) cut: usize,
    /// How many octets a read gives at most.
    pub(crate) width: usize,
    /// How many octets a read gives at most behind the cut.
    pub(crate) pace: usize,
    /// Whether it sends what stands behind the cut for ever.
    pub(crate) is_endless: bool,
    /// Which of the reads fails, from 1 on, or 0 where none does.
    pub(crate) fails_at: u64,
    /// How often it was read.
    pub(crate) reads: u64,
}

impl Peer {
    /// A peer that sends nothing yet.
    pub(crate) fn new(alloc: Global) -> Peer {
        Peer {
            octets: Vec::new(alloc),
            place: 0,
            cut: usize::MAX,
            width: usize::MAX,
            pace: usize::MAX,
            is_endless: false,
            fails_at: 0,
            reads: 0,
        }
    }

    /// What the next read gives at most.
    fn next(&self) -> &[u8] {
        let whole = self.octets.as_slice();
        let (end, width) = if self.place < self.cut {
            (self.cut.min(whole.len()), self.width)
        } else {
            (whole.len(), self.width.min(self.pace))
        };
        let rest = whole.get(self.place..end).unwrap_or(b"");
        rest.get(..width).unwrap_or(rest)
    }
}

impl Read for Peer {
    fn read(&mut self, buf: &mut [u8]) -> io::Result<usize> {
        self.reads = self.reads.saturating_add(1);
        if self.reads == self.fails_at {
            return Err(io::Error::from(ErrorKind::BrokenPipe));
        }
        if self.is_endless && self.place == self.octets.len() {
            self.place = self.cut;
        }
        let next = self.next();
        let count = next.len().min(buf.len());
        buf[..count].copy_from_slice(&next[..count]);
        self.place = self.place.saturating_add(count);
        Ok(count)
    }
}
