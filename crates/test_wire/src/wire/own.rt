//! Cases of a device that isn't one of the standard library.

use crate::spelling::Spelled;
use std::alloc::{AllocError, Global};
use zmtp_wire::{Counted, Inlet, Outlet, ReadFailed, WriteFailed, write_all};

/// An inlet and an outlet by itself: it takes one octet a write, and gives one octet a read.
#[derive(Drop)]
struct OneByOne<'a> {
    /// The octets to be given.
    rest: &'a [u8],
    /// The octets that were taken.
    taken: Vec<u8>,
    /// How often it was read.
    reads: u64,
    /// How many reads or writes failed.
    failures: u64,
}

impl<'a> Inlet for OneByOne<'a> {
    ghost use Rattle.std.specs.Prelude.{Some};

    ghost inflow = { λ device. record {
      left = Some device.rest.now;
      reads = device.reads;
      failures = device.failures;
    } };

    fn read(&mut self, into: &mut [u8]) -> Result<usize, ReadFailed> {
        self.reads = self.reads.saturating_add(1);
        let Some(place) = into.first_mut() else {
            return Ok(0);
        };
        let Some((first, rest)) = self.rest.split_first() else {
            return Ok(0);
        };
        *place = *first;
        self.rest = rest;
        Ok(1)
    }
}

impl<'a> Outlet for OneByOne<'a> {
    ghost use Rattle.std.specs.Prelude.{Some};

    ghost outflow = { λ device. record {
      written = Some device.taken.items;
      failures = device.failures;
    } };

    fn write(&mut self, piece: &[u8]) -> Result<usize, WriteFailed> {
        let Some(first) = piece.first() else {
            return Ok(0);
        };
        if self.taken.push(*first).is_err() {
            self.failures = self.failures.saturating_add(1);
            return Err(WriteFailed);
        }
        Ok(1)
    }
}

/// Copies what an inlet has left, so many times a piece of three octets at most. Answers whether no read and no write
/// failed.
fn copy<I: Inlet, O: Outlet>(from: &mut I, to: &mut O, pieces: u32) -> bool {
    let mut into = [0; 3];
    for _ in 0..pieces {
        let Ok(count) = from.read(&mut into) else {
            return false;
        };
        if write_all(to, &into[..count]).is_err() {
            return false;
        }
    }
    true
}

/// Says what a device of one's own gives to one of the standard library, what it takes of another one, and how often it
/// was read and failed.
pub(crate) fn copy_both(
    alloc: Global,
    arguments: &[Vec<u8>],
    said: &mut String,
) -> Result<(), AllocError> {
    let [given, taken] = arguments else {
        return Ok(());
    };
    let mut device = OneByOne {
        rest: given,
        taken: Vec::new(alloc),
        reads: 0,
        failures: 0,
    };
    let mut counted = Counted::new(Vec::new(alloc));
    let gave = copy(&mut device, &mut counted, 6);
    write!(said, "{gave} {}, ", Spelled(&counted.into_inner()))?;
    let took = copy(&mut Counted::new(taken.as_slice()), &mut device, 3);
    write!(said, "{took} {}, ", Spelled(&device.taken))?;
    write!(said, "{} reads, {} failures", device.reads, device.failures)
}
