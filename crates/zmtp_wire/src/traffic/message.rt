//! A message that was read, and writing one.

ghost use Rattle.std.specs.Prelude.{◌≡◌, ◌+◌, ◌<◌, ◌≤◌, ◌++◌, length, OnOk, OnErr, IfErr, IfSome, IfNone, vec_len};
ghost use Rattle.std.specs.Prelude.{vec_capacity, false};
ghost use Rattle.zmtp_wire.specs.Device.{AddsAll};
ghost use Rattle.zmtp_wire.specs.Frame.{text, frame_octets, shortest};
ghost use Rattle.listed.specs.Bodies.{bodies};
ghost use Rattle.zmtp_wire.specs.declared.fault.WireFault.TheVariants.{OutOfMemory};

use crate::device::{Outlet, WriteFailed, write_all};
use crate::fault::WireFault;
use crate::traffic::head::frame_head;
use std::alloc::Global;
use std::marker::Model;

/// The frames of a message that are owned, at least one: a contract sees the list of their bodies.
#[derive(Debug, Drop)]
pub struct Message {
    /// The frames, each with its body.
    frames: Vec<Vec<u8>>,
}

impl Model for Message {
    ghost use Rattle.std.specs.Prelude.{ℕ, ◌<◌, List, length};
    ghost use Rattle.listed.specs.Bodies.{bodies};

    ghost Value = { List (List ℕ) };

    ghost view = { λ message. bodies message.frames.items };

    ghost invariant = { λ message. 0 < length message.frames.items };
}

impl Message {
    /// The message of these frames, without a copy.
    pub fn new(frames: Vec<Vec<u8>>) -> Message
        requires { 0 < length frames.items }
        ensures { result ≡ bodies frames.items }
    {
        Message { frames }
    }

    /// The frames as a slice, each with its body.
    pub fn as_slice(&self) -> &[Vec<u8>]
        ensures frames { bodies result.now ≡ self.now }
        ensures some { 0 < length result.now }
    {
        self.frames.as_slice()
    }

    /// The `Vec` that holds the frames, without a copy.
    pub fn into_vec(self) -> Vec<Vec<u8>>
        ensures { bodies result.items ≡ self }
    {
        let Message { frames } = self;
        frames
    }
}

/// Appends the text of a message of these frames (RFC 23, "Framing"): MORE on all but the last, a size of
/// one octet up to 255 and of eight above. Room for all of it is asked for once, before the first octet is
/// written, so `out` grows at most once. `_alloc` says that memory may be asked for; `out` asks for its own.
///
/// # Errors
///
/// `OutOfMemory`, if `out` hasn't that room and isn't given it, and nothing else. `out` stays as it was.
pub fn write_message(_alloc: Global, frames: &[Vec<u8>], out: &mut Vec<u8>) -> Result<(), WireFault>
    requires { 0 < length frames.now }
    ensures ok { OnOk result (out.new.items ≡ out.old.items ++ text (bodies frames.now)) }
    ensures err { OnErr result (out.new.items ≡ out.old.items) }
    ensures fault { IfErr result (λ fault. fault ≡ OutOfMemory) }

    // It is refused only if room was missing.
    ensures full { OnErr result (vec_capacity out.old < vec_len out.old + length (text (bodies frames.now))) }
{
    let Some(room) = text_len(frames) else {
        return Err(WireFault::OutOfMemory);
    };
    out.reserve(room)?;
    append_frames(frames, out);
    Ok(())
}

/// How many octets the text of a message of these frames has, or nothing if a `usize` can't say it. Needs no memory.
pub fn text_len(frames: &[Vec<u8>]) -> Option<usize>
    ensures said { IfSome result (λ len. len ≡ length (text (bodies frames.now))) }
    ensures unsaid { IfNone result (usize.MAX < length (text (bodies frames.now))) }
{
    let mut len = 0usize;
    for frame in frames {
        len = len.checked_add(frame_len(frame))?;
    }
    Some(len)
}

/// How many octets a frame has.
fn frame_len(body: &[u8]) -> usize
    ensures { result ≡ length (frame_octets false false (shortest body.now)) }
{
    frame_head(false, body.len()).octets().len() + body.len()
}

/// Appends the frames, for which there is room.
fn append_frames(frames: &[Vec<u8>], out: &mut Vec<u8>)
    requires { vec_len out.old + length (text (bodies frames.now)) ≤ vec_capacity out.old }
    ensures { out.new.items ≡ out.old.items ++ text (bodies frames.now) }
{
    let last = frames.len();
    for (i, frame) in frames.iter().enumerate() {
        append_frame(i + 1 < last, frame, out);
    }
}

/// Appends a frame, for which there is room. None of what it calls can be refused, as its proof shows.
fn append_frame(more: bool, body: &[u8], out: &mut Vec<u8>)
    requires { vec_len out.old + length (frame_octets more false (shortest body.now)) ≤ vec_capacity out.old }
    ensures frame { out.new.items ≡ out.old.items ++ frame_octets more false (shortest body.now) }
    ensures room { vec_capacity out.old ≤ vec_capacity out.new }
{
    let head = frame_head(more, body.len());
    out.extend_from_slice(head.octets()).unwrap();
    out.extend_from_slice(body).unwrap();
}

/// Writes the text of a message of these frames, head by head and body by body: the octets that `write_message`
/// appends, without memory.
///
/// # Errors
///
/// At the first write that fails or takes nothing. A beginning of the text was added.
pub fn write_frames<W: Outlet>(writer: &mut W, frames: &[Vec<u8>]) -> Result<(), WriteFailed>
    ensures { AddsAll (W.outflow writer.old) (W.outflow writer.new) result (text (bodies frames.now)) }
{
    let last = frames.len();
    for (i, frame) in frames.iter().enumerate() {
        write_frame(writer, i + 1 < last, frame)?;
    }
    Ok(())
}

/// Writes a frame.
fn write_frame<W: Outlet>(writer: &mut W, more: bool, body: &[u8]) -> Result<(), WriteFailed>
    ensures { AddsAll (W.outflow writer.old) (W.outflow writer.new) result
        (frame_octets more false (shortest body.now)) }
{
    let head = frame_head(more, body.len());
    write_all(writer, head.octets())?;
    write_all(writer, body)
}
