//! Cases of `zmtp_wire`: single calls.

mod device;
mod handshake;
mod own;
mod reading;
mod writing;

use crate::spelling::arguments_of;
use crate::wire::device::{failures, put, put_frames, read};
use crate::wire::handshake::{fault, greet, introduce, judge, pair};
use crate::wire::own::copy_both;
use crate::wire::reading::{cuts, feed};
use crate::wire::writing::{give_back, head, room, write};
use std::alloc::{AllocError, Global};

/// Says what a command asks for with these words: nothing where there is no such command.
pub(crate) fn answer(
    alloc: Global,
    command: &str,
    words: &str,
    said: &mut String,
) -> Result<(), AllocError> {
    said.push_str(" -> ")?;
    let arguments = arguments_of(alloc, words)?;
    if command == "message" {
        return give_back(arguments, said);
    }
    answer_command(alloc, command, &arguments, said)
}

/// Says what a command asks for with these octets.
fn answer_command(
    alloc: Global,
    command: &str,
    arguments: &[Vec<u8>],
    said: &mut String,
) -> Result<(), AllocError> {
    match command {
        "feed" => feed(alloc, arguments, said),
        "cuts" => cuts(alloc, arguments, said),
        "fault" => fault(arguments, said),
        "greeting" => greet(arguments, said),
        "pairs" => pair(arguments, said),
        "introduce" => introduce(alloc, arguments, said),
        "ready" => judge(alloc, arguments, said),
        "head" => head(arguments, said),
        "write" => write(alloc, arguments, said),
        "room" => room(alloc, arguments, said),
        "read" => read(alloc, arguments, said),
        "once" => put(alloc, true, arguments, said),
        "all" => put(alloc, false, arguments, said),
        "frames" => put_frames(alloc, arguments, said),
        "own" => copy_both(alloc, arguments, said),
        "failures" => failures(said),
        _ => Ok(()),
    }
}
