//! Responding to a peer: a server hears what it says, and what the server answers is written, and the PONG of a PING.

ghost use Rattle.std.specs.Prelude.{◌≡◌, ℕ, List, Err, MatchResult};
ghost use Rattle.zmtp_connection.specs.declared.end.Ending.{Ending};
ghost use Rattle.zmtp_connection.specs.Exchange.{devices_at};
ghost use Rattle.zmtp_connection.specs.Server.{marked};
ghost use Rattle.zmtp_connection.specs.Steps.{PutsAll};
ghost use Rattle.zmtp_wire.specs.Ping.{pong_to};
ghost use Rattle.zmtp_connection.specs.Open.{Holds};
ghost use Rattle.zmtp_connection.specs.Respond.{ConversesOn, Responds, flat, went};

use crate::end::{ConnectionEnd, Ending};
use crate::listening::{Listener, listen};
use crate::server::{Answered, Server};
use crate::shaking::OpenPeer;
use crate::turn::put;
use listed::Octets;
use std::alloc::Global;
use zmtp_wire::{Inlet, Message, Outlet, Traffic, pong_text, read_ping};

/// A server at the writer of its peer.
#[derive(Drop)]
struct Desk<'w, 's, 'r, W, S> {
    /// What replies and PONGs are written to.
    writer: &'w mut W,
    /// What answers messages.
    server: &'s mut S,
    /// Room for a reply, which is used again.
    reply: &'r mut Vec<u8>,
    /// Whether a message was dropped for want of memory.
    dropped: bool,
}

impl<W: Outlet, S: Server> Desk<'_, '_, '_, W, S> {
    /// Has a message answered, and writes what answers it.
    fn message(&mut self, alloc: Global, message: Message) -> Result<(), Ending<S::End>>
        ensures names { (self.new.writer.ghost_name ≡ self.old.writer.ghost_name)
            × (self.new.server.ghost_name ≡ self.old.server.ghost_name)
            × (self.new.reply.ghost_name ≡ self.old.reply.ghost_name)
            × (S.names self.new.server.now ≡ S.names self.old.server.now) }
        ensures responds { Responds S.answers (record {
          outflow = W.outflow self.old.writer.now;
          serving = record { server = self.old.server.now; dropped = self.old.dropped };
        }) (Traffic.Message message) (record {
          outflow = W.outflow self.new.writer.now;
          serving = record { server = self.new.server.now; dropped = self.new.dropped };
        }) result }
    {
        self.reply.clear();
        let answered = self.server.answer(alloc, message, self.reply);
        self.dropped = mark(self.dropped, &answered);
        let written = put(self.writer, self.reply);
        go(answered, written)
    }

    /// Answers a PING by its PONG, and ignores another command.
    fn command(&mut self, name: Octets, rest: Octets) -> Result<(), Ending<S::End>>
        ensures names { (self.new.writer.ghost_name ≡ self.old.writer.ghost_name)
            × (self.new.server.ghost_name ≡ self.old.server.ghost_name)
            × (self.new.reply.ghost_name ≡ self.old.reply.ghost_name)
            × (S.names self.new.server.now ≡ S.names self.old.server.now) }
        ensures responds { Responds S.answers (record {
          outflow = W.outflow self.old.writer.now;
          serving = record { server = self.old.server.now; dropped = self.old.dropped };
        }) (Traffic.Command name rest) (record {
          outflow = W.outflow self.new.writer.now;
          serving = record { server = self.new.server.now; dropped = self.new.dropped };
        }) result }
    {
        let command = Traffic::Command(name, rest);
        let written = write_pong(self.writer, &command);
        go(Ok(Answered::Done), written)
    }
}

/// Writes the PONG that answers traffic, if that is a PING.
///
/// # Errors
///
/// `Failed` with `Write`, if a beginning of it was written.
fn write_pong<W: Outlet>(writer: &mut W, traffic: &Traffic) -> Result<(), ConnectionEnd>
    ensures { PutsAll (W.outflow writer.old) (W.outflow writer.new) (pong_to traffic.now) result }
{
    match read_ping(traffic) {
        Some(context) => put(writer, pong_text(context).octets()),
        None => Ok(()),
    }
}

/// Whether a message was dropped by then, with one more that was answered so.
fn mark<E>(dropped: bool, answered: &Result<Answered, E>) -> bool
    ensures { result ≡ marked dropped answered.now }
{
    match answered {
        Ok(Answered::Done) | Err(_) => dropped,
        Ok(Answered::Dropped) => true,
    }
}

/// Goes on after an answer that was written, or ends as it says. If the write failed, it ends as that did.
fn go<E: Drop>(
    answered: Result<Answered, E>,
    written: Result<(), ConnectionEnd>,
) -> Result<(), Ending<E>>
    ensures { MatchResult written (λ _. result ≡ went answered) (λ end. result ≡ Err (Ending.Connection end)) }
{
    if let Err(end) = written {
        drop(answered);
        return Err(Ending::Connection(end));
    }
    match answered {
        Ok(_) => Ok(()),
        Err(end) => Err(Ending::Host(end)),
    }
}

impl<W: Outlet, S: Server> Listener for Desk<'_, '_, '_, W, S> {
    type End = Ending<S::End>;

    ghost use Rattle.std.specs.Prelude.{◌∷◌};
    ghost use Rattle.zmtp_connection.specs.Respond.{Responds};

    ghost hears = { λ old traffic new result. Responds S.answers (record {
      outflow = W.outflow old.writer.now;
      serving = record { server = old.server.now; dropped = old.dropped };
    }) traffic (record {
      outflow = W.outflow new.writer.now;
      serving = record { server = new.server.now; dropped = new.dropped };
    }) result };

    ghost names = { λ desk. desk.writer.ghost_name ∷ desk.server.ghost_name ∷ desk.reply.ghost_name
        ∷ S.names desk.server.now };

    fn hear(&mut self, alloc: Global, traffic: Traffic) -> Result<(), Ending<S::End>> {
        match traffic {
            Traffic::Message(message) => self.message(alloc, message),
            Traffic::Command(name, rest) => self.command(name, rest),
        }
    }
}

/// How it ended that ended as the connection did, or as another ending says.
fn flatten<E>(ending: Ending<Ending<E>>) -> Ending<E>
    ensures { result ≡ flat ending }
{
    match ending {
        Ending::Connection(end) => Ending::Connection(end),
        Ending::Host(ending) => ending,
    }
}

/// Has what an open peer says answered by a server, until it ends; how, and whether a message was dropped for want of
/// memory. At most `turns` reads are made.
pub(crate) fn respond<R: Inlet, W: Outlet, S: Server>(
    alloc: Global,
    reader: &mut R,
    writer: &mut W,
    server: &mut S,
    peer: &mut OpenPeer,
    turns: u64,
) -> (Ending<S::End>, bool)
    ensures names { S.names server.new ≡ S.names server.old }
    ensures responds { (before : List ℕ) → Holds peer.old before → (left : ℕ)
        × ConversesOn result.1 S.answers server.old before
        (devices_at (R.inflow reader.old) turns (W.outflow writer.old))
        (devices_at (R.inflow reader.new) left (W.outflow writer.new)) server.new result.0 }
{
    let mut reply = Vec::new(alloc);
    let mut desk = Desk {
        writer,
        server,
        reply: &mut reply,
        dropped: false,
    };
    let ending = listen(alloc, reader, &mut desk, peer, turns);
    let dropped = desk.dropped;
    (flatten(ending), dropped)
}
