//! What a peer of shell or control is written to, which the two threads of its connection share.

ghost use Rattle.std.specs.Prelude.{◌≡◌};
ghost use Rattle.kernel_sockets.specs.Hearing.{pong_of};
ghost use Rattle.listed.specs.Bodies.{bodies};
ghost use Rattle.zmtp_wire.specs.Device.{AddsAll};
ghost use Rattle.zmtp_wire.specs.Frame.{text};

use crate::socket::Socket;
use std::alloc::{AllocError, Global};
use std::sync::{Arc, Mutex, Wait};
use zmtp_wire::{
    Counted, Head, Outlet, Traffic, WriteFailed, pong_text, read_ping, write_all, write_frames,
    write_message,
};

/// What a peer is written to: by one thread the replies, and by the other the PONGs, one whole text after the other.
#[derive(Drop)]
pub struct SharedWriter {
    /// The one that both have.
    writer: Arc<Mutex<Counted<Socket>>, Global>,
}

impl SharedWriter {
    /// What a peer is written to, for both threads. None if no memory is left.
    pub fn twice(alloc: Global, writer: Counted<Socket>) -> Option<(SharedWriter, SharedWriter)> {
        let writer = Arc::new(alloc, Mutex::new(writer)).ok()?;
        match Arc::try_clone(&writer) {
            Ok(other) => Some((SharedWriter { writer }, SharedWriter { writer: other })),
            Err(AllocError) => {
                drop(writer);
                None
            }
        }
    }

    /// Writes a message, and answers whether that went well.
    pub fn message<R: Wait>(&self, rt: &R, alloc: Global, frames: &[Vec<u8>]) -> bool {
        let mut writer = self.writer.lock(rt);
        write_whole(alloc, &mut *writer, frames).is_ok()
    }

    /// Writes a PONG, and answers whether that went well.
    pub fn pong<R: Wait>(&self, rt: &R, pong: &Head) -> bool {
        let mut writer = self.writer.lock(rt);
        write_all(&mut *writer, pong.octets()).is_ok()
    }
}

/// The PONG that answers traffic, if that is a PING.
pub fn pong_to(traffic: &Traffic) -> Option<Head>
    ensures { result ≡ pong_of traffic.now }
{
    Some(pong_text(read_ping(traffic)?))
}

/// Writes a message in as few writes as memory allows: its text, or nothing if it has no frames.
///
/// # Errors
///
/// At the first write that fails or takes nothing. A beginning of the text was added.
pub fn write_whole<W: Outlet>(
    alloc: Global,
    writer: &mut W,
    frames: &[Vec<u8>],
) -> Result<(), WriteFailed>
    ensures { AddsAll (W.outflow writer.old) (W.outflow writer.new) result (text (bodies frames.now)) }
{
    if frames.is_empty() {
        return write_frames(writer, frames);
    }
    let mut text = Vec::new(alloc);
    match write_message(alloc, frames, &mut text) {
        Ok(()) => write_all(writer, &text),
        // A text takes memory, and its frames take none.
        Err(_) => write_frames(writer, frames),
    }
}
