//! What is written to.

use std::alloc::Global;
use std::io::{self, ErrorKind, Write};

/// Takes so many octets a write, and when it has no more room takes none, or fails.
#[derive(Drop)]
pub(crate) struct Sink {
    /// What was taken.
    pub(crate) octets: Vec<u8>,
    /// How many octets a write takes at most.
    pub(crate) width: usize,
    /// How many octets are still taken.
    pub(crate) room: usize,
    /// Whether each write fails then.
    pub(crate) is_broken: bool,
}

impl Sink {
    /// A writer that takes all.
    pub(crate) fn new(alloc: Global) -> Sink {
        Sink {
            octets: Vec::new(alloc),
            width: usize::MAX,
            room: usize::MAX,
            is_broken: false,
        }
    }
}

impl Write for Sink {
    fn write(&mut self, buf: &[u8]) -> io::Result<usize> {
        if self.room == 0 && self.is_broken {
            return Err(io::Error::from(ErrorKind::BrokenPipe));
        }
        let count = self.width.min(self.room).min(buf.len());
        self.octets.extend_from_slice(&buf[..count])?;
        self.room -= count;
        Ok(count)
    }

    fn flush(&mut self) -> io::Result<()> {
        Ok(())
    }
}
