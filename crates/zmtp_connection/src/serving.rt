//! Serving a peer: shaking hands with it, and then answering what it says.

ghost use Rattle.std.specs.Prelude.{◌≡◌, ℕ, Bool};
ghost use Rattle.zmtp_connection.specs.declared.end.Ending.{Ending};
ghost use Rattle.zmtp_connection.specs.Exchange.{devices_at};
ghost use Rattle.zmtp_connection.specs.Server.{ServesPeer, told_ending};

use crate::end::{ConnectionEnd, Ending};
use crate::fault::ConnectionFault;
use crate::responding::respond;
use crate::server::Server;
use crate::shaking::shake_within;
use std::alloc::Global;
use zmtp_wire::{Inlet, Outlet, SocketType};

/// Serves a peer: greeting out, greeting in, READY out, READY in, and then each message and each PING answered. It ends
/// after the peer's octets end or are refused, if the server ends it, or if the connection can't go on. After the
/// message has come at which the server ends it, nothing is read. At most `turns` reads are made.
///
/// If a message was dropped for want of memory the session goes on. It ends then as the connection, `Failed` with
/// `Memory`.
pub fn serve<R: Inlet, W: Outlet, S: Server>(
    alloc: Global,
    reader: &mut R,
    writer: &mut W,
    server: &mut S,
    ours: SocketType,
    turns: u64,
) -> Ending<S::End>
    ensures names { S.names server.new ≡ S.names server.old }
    ensures serves { (left : ℕ) × (dropped : Bool) × (ending : Ending S.End)
        × ServesPeer dropped S.answers ours server.old (devices_at (R.inflow reader.old) turns (W.outflow writer.old))
        (devices_at (R.inflow reader.new) left (W.outflow writer.new)) server.new ending
        × (result ≡ told_ending dropped ending) }
{
    let mut left = turns;
    let mut peer = match shake_within(alloc, reader, writer, ours, &mut left) {
        Ok(peer) => peer,
        Err(end) => return Ending::Connection(end),
    };
    let (ending, dropped) = respond(alloc, reader, writer, server, &mut peer, left);
    drop(peer);
    tell(dropped, ending)
}

/// The end that is told of a session: want of memory if a message was dropped, and else the end itself.
fn tell<E: Drop>(dropped: bool, ending: Ending<E>) -> Ending<E>
    ensures { result ≡ told_ending dropped ending }
{
    if dropped {
        drop(ending);
        return Ending::Connection(ConnectionEnd::Failed(ConnectionFault::Memory));
    }
    ending
}
