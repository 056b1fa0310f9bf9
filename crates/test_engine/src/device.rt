//! What a session reads from and writes to.

use std::alloc::Global;
use std::io::{self, ErrorKind, Read, Write};

/// How a session's devices behave, and how many reads it may make.
#[derive(Clone, Copy, Debug)]
pub(crate) struct Devices {
    /// How many octets a read gives at most.
    pub(crate) width: usize,
    /// The read that fails, or 0.
    pub(crate) fails: u64,
    /// How many octets a write takes at most.
    pub(crate) takes: usize,
    /// The write that fails, or 0.
    pub(crate) jams: u64,
    /// How many reads there may be.
    pub(crate) turns: u64,
}

impl Devices {
    /// Devices that give and take all and never fail.
    pub(crate) fn sound() -> Devices {
        Devices {
            width: usize::MAX,
            fails: 0,
            takes: usize::MAX,
            jams: 0,
            turns: 1000,
        }
    }

    /// Sets what a key names, and answers whether it names something.
    pub(crate) fn set(&mut self, key: &str, number: u64) -> bool {
        match key {
            "width" => self.width = number as usize,
            "fails" => self.fails = number,
            "takes" => self.takes = number as usize,
            "jams" => self.jams = number,
            "turns" => self.turns = number,
            _ => return false,
        }
        true
    }
}

/// Gives so many octets a read, and fails at one, and at none after it.
#[derive(Clone, Copy)]
pub(crate) struct Drip<'a> {
    /// What it has left.
    rest: &'a [u8],
    /// How many octets it gives a read.
    width: usize,
    /// How many reads it is to the one that fails, or 0.
    fails: u64,
}

impl<'a> Drip<'a> {
    /// A reader of these octets.
    pub(crate) fn new(octets: &'a [u8], devices: Devices) -> Drip<'a> {
        Drip {
            rest: octets,
            width: devices.width,
            fails: devices.fails,
        }
    }
}

impl Read for Drip<'_> {
    fn read(&mut self, buf: &mut [u8]) -> io::Result<usize> {
        if self.fails == 1 {
            self.fails = 0;
            return Err(io::Error::from(ErrorKind::BrokenPipe));
        }
        self.fails = self.fails.saturating_sub(1);
        let count = self.width.min(self.rest.len()).min(buf.len());
        let (piece, rest) = self.rest.split_at(count);
        buf[..count].copy_from_slice(piece);
        self.rest = rest;
        Ok(count)
    }
}

/// Takes so many octets a write, and fails at one, and at none after it.
#[derive(Drop)]
pub(crate) struct Jam {
    /// What it took.
    pub(crate) octets: Vec<u8>,
    /// How many octets it takes a write.
    takes: usize,
    /// How many writes it is to the one that fails, or 0.
    jams: u64,
}

impl Jam {
    /// A writer that has taken nothing yet.
    pub(crate) fn new(alloc: Global, devices: Devices) -> Jam {
        Jam {
            octets: Vec::new(alloc),
            takes: devices.takes,
            jams: devices.jams,
        }
    }
}

impl Write for Jam {
    fn write(&mut self, buf: &[u8]) -> io::Result<usize> {
        if self.jams == 1 {
            self.jams = 0;
            return Err(io::Error::from(ErrorKind::BrokenPipe));
        }
        self.jams = self.jams.saturating_sub(1);
        let count = self.takes.min(buf.len());
        self.octets.extend_from_slice(&buf[..count])?;
        Ok(count)
    }

    fn flush(&mut self) -> io::Result<()> {
        Ok(())
    }
}
