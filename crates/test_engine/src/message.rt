//! Messages as texts.

use listed::Frames;
use percent_encoding::{AsciiSet, CONTROLS, ascii_set, percent_encode};
use std::alloc::{AllocError, Global};
use std::io;

/// The signs that don't stand for themselves where octets are told.
pub(crate) const MARKS: AsciiSet = ascii_set!(CONTROLS.add(b'%').add(b'\''));

/// The frames that stand behind the delimiter up to the content: the signature and four parts.
const PARTS: usize = 5;

/// Where the buffers of a message begin: behind its content.
fn place_of_buffers(frames: &[Vec<u8>]) -> usize {
    let delimiter = frames
        .iter()
        .position(|frame| frame.as_slice() == b"<IDS|MSG>".as_slice());
    match delimiter {
        Some(place) => place.saturating_add(1 + PARTS),
        None => frames.len(),
    }
}

/// The frames of a message, each behind a line feed.
fn whole(alloc: Global, frames: &[Vec<u8>]) -> io::Result<String> {
    let mut octets = Vec::new(alloc);
    for frame in frames {
        octets.push(b'\n')?;
        octets.extend_from_slice(frame.as_slice())?;
    }
    match String::from_utf8(octets) {
        Ok(text) => Ok(text),
        Err(_) => Err(io::Error::other("no text")),
    }
}

/// What a message says beside what is the same in each.
#[derive(Clone, Copy)]
struct Parts<'t> {
    /// Its topic behind a line feed, or nothing.
    topic: &'t str,
    /// Its id.
    id: &'t str,
    /// Its type.
    kind: &'t str,
    /// The id of what it answers.
    parent_id: &'t str,
    /// The type of what it answers.
    parent_kind: &'t str,
    /// Its content.
    content: &'t str,
}

/// What a message says whose frames these are, if all else is as in each.
fn parts_of(whole: &str) -> Option<Parts<'_>> {
    let (topic, rest) = whole.split_once(
        "\n<IDS|MSG>\n\n{\"date\":\"2026-11-23T00:00:00.000000Z\",\"msg_id\":\"",
    )?;
    let (id, rest) = rest.split_once("\",\"msg_type\":\"")?;
    let (kind, rest) = rest.split_once(
        "\",\"session\":\"replay\",\"username\":\"kernel\",\"version\":\"5.3\"}\n{\"msg_id\":\"",
    )?;
    let (parent_id, rest) = rest.split_once("\",\"msg_type\":\"")?;
    let (parent_kind, content) = rest.split_once("\"}\n{}\n")?;
    Some(Parts {
        topic,
        id,
        kind,
        parent_id,
        parent_kind,
        content,
    })
}

/// Adds a message to a text, on one line.
pub(crate) fn add_message(alloc: Global, text: &mut String, frames: &Frames) -> io::Result<()> {
    let frames = frames.as_slice();
    let (front, buffers) = frames.split_at(frames.len().min(place_of_buffers(frames)));
    let whole = whole(alloc, front)?;
    add_text(text, whole.as_str())?;
    Ok(add_buffers(text, buffers)?)
}

/// Adds the buffers of a message to a text, each percent-encoded and in quotes.
fn add_buffers(text: &mut String, buffers: &[Vec<u8>]) -> Result<(), AllocError> {
    for buffer in buffers {
        write!(text, " + '{}'", percent_encode(buffer.as_slice(), MARKS))?;
    }
    Ok(())
}

/// Adds a message whose frames these are to a text, on one line.
fn add_text(text: &mut String, whole: &str) -> Result<(), AllocError> {
    let Some(parts) = parts_of(whole) else {
        return write!(text, " {whole:?}");
    };
    let Parts {
        topic,
        id,
        kind,
        parent_id,
        parent_kind,
        content,
    } = parts;
    let behind = topic.strip_prefix('\n').unwrap_or("reply");
    write!(
        text,
        " {behind} {kind} {id} of {parent_id} {parent_kind}: {content}"
    )
}
