//! What is written of a message whose text wasn't built, for want of memory: it is written frame by frame, by
//! `write_frames`, to the same writers as the texts of the other tests.

use crate::tests::steps::{ALL, EVERYTHING, Last, Narrow, STREAMS, Takes, frames_of};
use std::alloc::{AllocError, Global};
use std::test::Fail;
use zmtp_wire::write_frames;

/// The messages of the standard list, each with whether the second subscriber gets it.
const MESSAGES: [(&[u8], &[u8], bool); 4] = [
    (b"stream.stdout", b"x", true),
    (b"status", b"y", false),
    (b"stream.stdout", b"z", true),
    (b"stream.stdout", b"w", false),
];

/// Writes the messages of the standard list frame by frame, all of them or those of the second subscriber, up to the
/// first write that fails; answers whether none did.
fn write_standard(alloc: Global, writer: &mut Narrow, all: bool) -> Result<bool, AllocError> {
    for (topic, body, both) in MESSAGES {
        if all || both {
            let frames = frames_of(alloc, &[topic, body])?;
            if write_frames(writer, frames.as_slice()).is_err() {
                return Ok(false);
            }
        }
    }
    Ok(true)
}

/// Whether so many octets are written of the standard list, or of the second subscriber's part of it, and whether all
/// are where these are as many.
fn are_written(alloc: Global, takes: Takes, all: bool, octets: usize) -> Result<bool, AllocError> {
    let wanted = if all { EVERYTHING } else { STREAMS };
    let mut writer = Narrow::new(alloc, takes);
    let whole = write_standard(alloc, &mut writer, all)?;
    Ok(whole == (octets == wanted.len()) && Some(writer.octets.as_slice()) == wanted.get(..octets))
}

/// Whether both parts of the standard list are written to writers that take so many octets a write.
fn both_are_written(alloc: Global, width: usize) -> Result<bool, AllocError> {
    let takes = Takes { width, ..ALL };
    Ok(
        are_written(alloc, takes, true, EVERYTHING.len())?
            && are_written(alloc, takes, false, STREAMS.len())?,
    )
}

#[test]
fn frames_to_writers_that_take_one_octet_or_twenty_or_all(rt: HostRuntime) -> Result<(), Fail> {
    for width in [1, 2, 13, 20, usize::MAX] {
        assert!(rt; both_are_written(rt.alloc(), width)?, "{width}");
    }
    Ok(())
}

/// Whether so many octets are written to each writer that takes one a write, and so many writes.
fn each_octet_is_written(alloc: Global, last: Last) -> Result<bool, AllocError> {
    let width = 1;
    for writes in 0..=EVERYTHING.len() {
        let takes = Takes {
            width,
            writes,
            last,
        };
        if !are_written(alloc, takes, true, writes)? {
            return Ok(false);
        }
    }
    Ok(true)
}

#[test]
fn a_write_of_a_frame_that_fails_at_every_place(rt: HostRuntime) -> Result<(), Fail> {
    for last in [Last::Fails, Last::TakesNothing] {
        assert!(rt; each_octet_is_written(rt.alloc(), last)?, "{last:?}");
    }
    Ok(())
}
