//! Devices: what octets are read from and written to. Their failures and reads are counted, by counts that
//! contracts alone see.

ghost use Rattle.std.specs.Prelude.{◌≡◌};
ghost use Rattle.std.specs.Io.{ReadsAtMost, WritesAtMost};
ghost use Rattle.std.specs.Io.KnownBytes.{ReadConsumes, WriteAppends};
ghost use Rattle.zmtp_wire.specs.Device.{Inflow, Outflow, ReadTakes, WriteAdds, AddsAll};

use std::io::{ErrorKind, Read, Write};
use std::marker::Model;
use thiserror::Error;

/// How often a call is made again that the system interrupted.
const TRIES: u32 = 1_000_000;

/// A read failed. No octet was taken.
#[derive(Clone, Copy, Debug, PartialEq, Eq, Error)]
#[error("a read failed")]
pub struct ReadFailed;

/// A write failed, or took nothing of a piece that isn't empty.
#[derive(Clone, Copy, Debug, PartialEq, Eq, Error)]
#[error("a write failed")]
pub struct WriteFailed;

/// What octets are read from.
pub trait Inlet {
    /// The octets that are left, if it tells them, and its counts.
    ghost inflow: { Self → Inflow };

    /// Reads the next octets into the front of `into`, and answers how many: 0 only if none is left, or if `into` is
    /// empty.
    ///
    /// # Errors
    ///
    /// If the read failed. It took no octet.
    fn read(&mut self, into: &mut [u8]) -> Result<usize, ReadFailed>
        ensures bound { ReadsAtMost result into.new }
        ensures reads { ReadTakes (inflow self.old) (inflow self.new) result into.new };
}

/// What octets are written to.
pub trait Outlet {
    /// The octets that were written, if it tells them, and its count.
    ghost outflow: { Self → Outflow };

    /// Writes the first octets of a piece, and answers how many: 0 counts as a failure if the piece isn't empty.
    ///
    /// # Errors
    ///
    /// If the write failed. It added no octet.
    fn write(&mut self, piece: &[u8]) -> Result<usize, WriteFailed>
        ensures bound { WritesAtMost result piece.now }
        ensures writes { WriteAdds (outflow self.old) (outflow self.new) result piece.now };
}

/// Writes all of the octets, in as many writes as it takes.
///
/// # Errors
///
/// At the first write that fails or takes nothing. A beginning of the octets was added.
pub fn write_all<W: Outlet>(writer: &mut W, octets: &[u8]) -> Result<(), WriteFailed>
    ensures { AddsAll (W.outflow writer.old) (W.outflow writer.new) result octets.now }
{
    let mut rest = octets;
    while !rest.is_empty() {
        let count = writer.write(rest)?;
        if count == 0 {
            return Err(WriteFailed);
        }
        let (_, after) = rest.split_at(count);
        rest = after;
    }
    Ok(())
}

/// A reader or a writer of the standard library as an inlet or an outlet: it counts reads, failed reads and failed
/// writes, each up to the greatest `u64`. A call that the system interrupted is made again.
#[derive(Debug, Drop)]
pub struct Counted<D> {
    /// What is read or written.
    device: D,
    /// How often it was read.
    reads: u64,
    /// How many of the reads failed.
    failed_reads: u64,
    /// How many writes failed, or took nothing of a piece that isn't empty.
    failed_writes: u64,
}

impl<D> Model for Counted<D> {
    ghost use Rattle.zmtp_wire.specs.Device.{Counting};

    ghost Value = { Counting D };

    ghost view = { λ counted. record {
      device = counted.device;
      reads = counted.reads;
      failed_reads = counted.failed_reads;
      failed_writes = counted.failed_writes;
    } };
}

impl<D> Counted<D> {
    /// A device that was neither read nor written.
    pub fn new(device: D) -> Counted<D>
        ensures { result ≡ record {
          device = device;
          reads = 0;
          failed_reads = 0;
          failed_writes = 0;
        } }
    {
        Counted {
            device,
            reads: 0,
            failed_reads: 0,
            failed_writes: 0,
        }
    }

    /// The device itself.
    pub fn into_inner(self) -> D
        ensures { result ≡ self.device }
    {
        self.device
    }
}

impl<D: Read> Inlet for Counted<D> {
    ghost use Rattle.zmtp_wire.specs.Device.{inflow_of};

    ghost inflow = { inflow_of D.remaining };

    fn read(&mut self, into: &mut [u8]) -> Result<usize, ReadFailed>
        ensures bound { ReadsAtMost result into.new }
        ensures reads { ReadTakes (inflow_of D.remaining self.old) (inflow_of D.remaining self.new) result into.new }
        ensures writes_stay { self.new.failed_writes ≡ self.old.failed_writes }
    {
        self.reads = self.reads.saturating_add(1);
        let result = read_once(&mut self.device, into);
        if result.is_err() {
            self.failed_reads = self.failed_reads.saturating_add(1);
        }
        result
    }
}

impl<D: Write> Outlet for Counted<D> {
    ghost use Rattle.zmtp_wire.specs.Device.{outflow_of};

    ghost outflow = { outflow_of D.contents };

    fn write(&mut self, piece: &[u8]) -> Result<usize, WriteFailed>
        ensures bound { WritesAtMost result piece.now }
        ensures writes { WriteAdds (outflow_of D.contents self.old) (outflow_of D.contents self.new) result piece.now }
        ensures reads_stay { (self.new.reads ≡ self.old.reads) × (self.new.failed_reads ≡ self.old.failed_reads) }
    {
        let result = write_once(&mut self.device, piece);
        let idle = match result {
            Ok(count) => count == 0 && !piece.is_empty(),
            Err(WriteFailed) => true,
        };
        if idle {
            self.failed_writes = self.failed_writes.saturating_add(1);
        }
        result
    }
}

/// One read that the system doesn't interrupt.
fn read_once<R: Read>(reader: &mut R, into: &mut [u8]) -> Result<usize, ReadFailed>
    ensures bound { ReadsAtMost result into.new }
    ensures bytes { ReadConsumes (R.remaining reader.old) (R.remaining reader.new) result into.new }
{
    for _ in 0..TRIES {
        match reader.read(into) {
            Ok(count) => return Ok(count),
            Err(error) => {
                if error.kind() != ErrorKind::Interrupted {
                    return Err(ReadFailed);
                }
            }
        }
    }
    Err(ReadFailed)
}

/// One write that the system doesn't interrupt.
fn write_once<W: Write>(writer: &mut W, piece: &[u8]) -> Result<usize, WriteFailed>
    ensures bound { WritesAtMost result piece.now }
    ensures bytes { WriteAppends (W.contents writer.old) (W.contents writer.new) result piece.now }
{
    for _ in 0..TRIES {
        match writer.write(piece) {
            Ok(count) => return Ok(count),
            Err(error) => {
                if error.kind() != ErrorKind::Interrupted {
                    return Err(WriteFailed);
                }
            }
        }
    }
    Err(WriteFailed)
}
