//! Cases of writing messages.

use crate::spelling::Spelled;
use crate::wire::reading::{Bodies, Said};
use std::alloc::{AllocError, Global};
use zmtp_wire::{Decoder, Limits, Message, frame_head, text_len, write_message};

/// Says the head of a frame that is `last` or has `more` behind it, and has this body.
pub(crate) fn head(arguments: &[Vec<u8>], said: &mut String) -> Result<(), AllocError> {
    let [place, body] = arguments else {
        return Ok(());
    };
    let head = frame_head(place.as_slice() == b"more".as_slice(), body.len());
    write!(said, "{}", Spelled(head.octets()))
}

/// Says what a message that is written behind octets makes of them, how long its text is, and what a decoder makes
/// of all of it.
pub(crate) fn write(
    alloc: Global,
    arguments: &[Vec<u8>],
    said: &mut String,
) -> Result<(), AllocError> {
    let [front, frames @ ..] = arguments else {
        return Ok(());
    };
    let mut out = front.as_slice().to_vec(alloc)?;
    if frames.is_empty() || write_message(alloc, frames, &mut out).is_err() {
        return Ok(());
    }
    let fed = Decoder::new(alloc, Limits::usual()).feed(&out);
    write!(
        said,
        "{} {:?} {}",
        Spelled(&out),
        text_len(frames),
        Said(&fed)
    )
}

/// Says what a message makes of as much room as octets stand first, and then again of the same: its octets, how many
/// they are, and how much room there is.
pub(crate) fn room(
    alloc: Global,
    arguments: &[Vec<u8>],
    said: &mut String,
) -> Result<(), AllocError> {
    let [room, frames @ ..] = arguments else {
        return Ok(());
    };
    let mut out = Vec::with_capacity(alloc, room.len())?;
    for _ in 0..2 {
        out.clear();
        if frames.is_empty() || write_message(alloc, frames, &mut out).is_err() {
            return Ok(());
        }
        write!(
            said,
            "[{} {} of {}]",
            Spelled(&out),
            out.len(),
            out.capacity()
        )?;
    }
    Ok(())
}

/// Says the frames of a message, and then the frames that it gives back.
pub(crate) fn give_back(frames: Vec<Vec<u8>>, said: &mut String) -> Result<(), AllocError> {
    if frames.is_empty() {
        return Ok(());
    }
    let message = Message::new(frames);
    write!(said, "M{};", Bodies(message.as_slice()))?;
    write!(said, "M{};", Bodies(&message.into_vec()))
}
