//! The heartbeat: a REP socket that writes each message back, and answers PINGs as each socket does.

ghost use Rattle.std.specs.Prelude.{ℕ, Some};
ghost use Rattle.zmtp_connection.specs.Exchange.{Exchange, devices_at};
ghost use Rattle.zmtp_connection.specs.Echo.{Echoes};

use crate::end::{ConnectionEnd, Ending};
use crate::fault::ConnectionFault;
use crate::server::{Answered, Server};
use crate::serving::serve;
use std::alloc::{AllocError, Global};
use zmtp_wire::{Inlet, Message, Outlet, SocketType, write_message};

/// Writes each message back.
#[derive(Clone, Copy)]
struct Heartbeat;

impl Server for Heartbeat {
    type End = AllocError;

    ghost use Rattle.std.specs.Prelude.{[]};
    ghost use Rattle.zmtp_connection.specs.Echo.{EchoesOne};

    ghost answers = { λ _ message reply _ result. EchoesOne message reply result };

    ghost names = { λ _. [] };

    fn answer(
        &mut self,
        alloc: Global,
        message: Message,
        reply: &mut Vec<u8>,
    ) -> Result<Answered, AllocError> {
        if write_message(alloc, message.as_slice(), reply).is_err() {
            return Err(AllocError);
        }
        Ok(Answered::Done)
    }
}

/// Serves a peer of the heartbeat channel, as a REP socket. It shakes hands with it, and writes each message back
/// whole, frame by frame, and a PONG for each PING. It ends after the peer's octets end or are refused, or if the
/// connection can't go on. At most `turns` reads are made.
pub fn echo<R: Inlet, W: Outlet>(
    alloc: Global,
    reader: &mut R,
    writer: &mut W,
    turns: u64,
) -> ConnectionEnd
    ensures { (left : ℕ) × Exchange (Echoes result) (devices_at (R.inflow reader.old) turns (W.outflow writer.old))
        (devices_at (R.inflow reader.new) left (W.outflow writer.new)) (Some result) }
{
    match serve(
        alloc,
        reader,
        writer,
        &mut Heartbeat,
        SocketType::Rep,
        turns,
    ) {
        Ending::Connection(end) => end,
        Ending::Host(AllocError) => ConnectionEnd::Failed(ConnectionFault::Memory),
    }
}
