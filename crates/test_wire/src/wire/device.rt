//! Cases of devices: readers and writers of the standard library, and one that does what a case says.

use crate::spelling::Spelled;
use std::alloc::{AllocError, Global};
use std::io::{self, ErrorKind, Read, Write};
use zmtp_wire::{Counted, Inlet, Outlet, ReadFailed, WriteFailed, write_all, write_frames};

/// What one call of a device does.
#[derive(Clone, Copy)]
enum Step {
    /// It reads or writes so many octets at most.
    Moves(usize),
    /// It fails with this kind of error.
    Fails(ErrorKind),
}

/// The step that a word says: the name of an error, or else as many octets as it has.
fn step_of(word: &[u8]) -> Step {
    if word == b"Interrupted".as_slice() {
        return Step::Fails(ErrorKind::Interrupted);
    }
    if word == b"BrokenPipe".as_slice() {
        return Step::Fails(ErrorKind::BrokenPipe);
    }
    if word == b"UnexpectedEof".as_slice() {
        return Step::Fails(ErrorKind::UnexpectedEof);
    }
    if word == b"Other".as_slice() {
        return Step::Fails(ErrorKind::Other);
    }
    Step::Moves(word.len())
}

/// Does one step after another, a call each, and fails once there is none left.
#[derive(Drop)]
struct Stepwise<'a> {
    /// The words of the steps to come.
    steps: &'a [Vec<u8>],
    /// The octets to be read.
    rest: &'a [u8],
    /// What was written.
    octets: Vec<u8>,
}

impl Stepwise<'_> {
    /// How many octets the next step moves at most.
    fn next(&mut self) -> io::Result<usize> {
        let Some((word, steps)) = self.steps.split_first() else {
            return Err(io::Error::from(ErrorKind::Other));
        };
        self.steps = steps;
        match step_of(word) {
            Step::Moves(most) => Ok(most),
            Step::Fails(kind) => Err(io::Error::from(kind)),
        }
    }
}

impl Read for Stepwise<'_> {
    fn read(&mut self, buf: &mut [u8]) -> io::Result<usize> {
        let count = self.next()?.min(self.rest.len()).min(buf.len());
        let (front, rest) = self.rest.split_at(count);
        buf[..count].copy_from_slice(front);
        self.rest = rest;
        Ok(count)
    }
}

impl Write for Stepwise<'_> {
    fn write(&mut self, buf: &[u8]) -> io::Result<usize> {
        let count = self.next()?.min(buf.len());
        self.octets.extend_from_slice(&buf[..count])?;
        Ok(count)
    }

    fn flush(&mut self) -> io::Result<()> {
        Ok(())
    }
}

/// Reads so many octets each time, four at most, into the front of one buffer. Says each answer, and what the buffer
/// has then.
fn read_in_turn<R: Read>(
    reader: &mut Counted<R>,
    sizes: &[u8],
    said: &mut String,
) -> Result<(), AllocError> {
    let mut into = [0; 4];
    for size in sizes {
        let answer = reader.read(&mut into[..usize::from(*size).min(4)]);
        write!(said, "[{answer:?} {}]", Spelled(&into))?;
    }
    Ok(())
}

/// Says what reads of octets give: of a slice, where there are no steps.
pub(crate) fn read(
    alloc: Global,
    arguments: &[Vec<u8>],
    said: &mut String,
) -> Result<(), AllocError> {
    let [octets, sizes, steps @ ..] = arguments else {
        return Ok(());
    };
    if steps.is_empty() {
        let mut counted = Counted::new(octets.as_slice());
        read_in_turn(&mut counted, sizes, said)?;
        return write!(said, " leaves {}", Spelled(counted.into_inner()));
    }
    let mut counted = Counted::new(Stepwise {
        steps,
        rest: octets,
        octets: Vec::new(alloc),
    });
    read_in_turn(&mut counted, sizes, said)?;
    write!(said, " leaves {} steps", counted.into_inner().steps.len())
}

/// Writes octets in pieces of these sizes, each at `once` or in as many writes as it takes. Says each answer.
fn write_in_turn<W: Write>(
    writer: &mut Counted<W>,
    once: bool,
    octets: &[u8],
    sizes: &[u8],
    said: &mut String,
) -> Result<(), AllocError> {
    let mut rest = octets;
    for size in sizes {
        let (piece, after) = rest.split_at(usize::from(*size).min(rest.len()));
        rest = after;
        if once {
            write!(said, "[{:?}]", writer.write(piece))?;
        } else {
            write!(said, "[{:?}]", write_all(writer, piece))?;
        }
    }
    Ok(())
}

/// Says what writes of octets give: to a vector that has `ab`, where there are no steps.
pub(crate) fn put(
    alloc: Global,
    once: bool,
    arguments: &[Vec<u8>],
    said: &mut String,
) -> Result<(), AllocError> {
    let [octets, sizes, steps @ ..] = arguments else {
        return Ok(());
    };
    if steps.is_empty() {
        let mut counted = Counted::new(b"ab".to_vec(alloc)?);
        write_in_turn(&mut counted, once, octets, sizes, said)?;
        return write!(said, " {}", Spelled(&counted.into_inner()));
    }
    let mut counted = Counted::new(Stepwise {
        steps,
        rest: &[],
        octets: Vec::new(alloc),
    });
    write_in_turn(&mut counted, once, octets, sizes, said)?;
    let device = counted.into_inner();
    write!(
        said,
        " {} leaves {} steps",
        Spelled(&device.octets),
        device.steps.len()
    )
}

/// Says how the message of `stream.stdout` and `x` is written frame by frame, with these steps.
pub(crate) fn put_frames(
    alloc: Global,
    steps: &[Vec<u8>],
    said: &mut String,
) -> Result<(), AllocError> {
    let frames = [b"stream.stdout".to_vec(alloc)?, b"x".to_vec(alloc)?];
    let mut counted = Counted::new(Stepwise {
        steps,
        rest: &[],
        octets: Vec::new(alloc),
    });
    let answer = write_frames(&mut counted, &frames);
    write!(said, "{answer:?} {}", Spelled(&counted.into_inner().octets))
}

/// Says the words of a read that failed and of a write.
pub(crate) fn failures(said: &mut String) -> Result<(), AllocError> {
    write!(said, "{ReadFailed}, {WriteFailed}")
}
