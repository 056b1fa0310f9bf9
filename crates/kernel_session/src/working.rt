//! Sessions of an engine with a peer. Each message is opened, handled as a request, and its reply written, and each
//! PING is answered.

ghost use Rattle.std.specs.Prelude.{◌≡◌, ◌<◌, ◌++◌, ℕ, List, Bool, length, IfSome};
ghost use Rattle.zmtp_wire.specs.declared.handshake.socket_type.SocketType.TheVariants.{Router};
ghost use Rattle.zmtp_connection.specs.declared.end.Ending.{Ending};
ghost use Rattle.zmtp_connection.specs.Ending.{of_connection};
ghost use Rattle.zmtp_connection.specs.Exchange.{Exchange, devices_at};
ghost use Rattle.zmtp_connection.specs.Server.{Answering, ServesPeer, told_ending};
ghost use Rattle.kernel_session.specs.declared.end.SessionEnd.{SessionEnd};
ghost use Rattle.kernel_session.specs.Session.{IsToldWhole};
ghost use Rattle.kernel_session.specs.Work.{WritesHandled, TellsSession, WorksOne};
ghost use Rattle.kernel_engine.specs.World.{world_of};

use crate::end::SessionEnd;
use interp_core::Interpreter;
use iopub_event::Event;
use iopub_queue::Publish;
use jmsg_envelope::Stamp;
use kernel_engine::{Done, Engine, EngineFault, Order, Response, Stop};
use listed::Frames;
use std::alloc::Global;
use zmtp_connection::{Answered, Ending, Server, serve};
use zmtp_wire::{Inlet, Message, Outlet, SocketType, write_message};

/// What answers the messages of a peer, if the cell that runs may be stopped.
trait Worker {
    /// One step, by whether a stop may come.
    ghost works: { Type 0 → Answering Self SessionEnd };

    /// Does a message: adds the octets that answer it.
    ///
    /// # Errors
    ///
    /// How the session ends: `Shutdown` if the message asked for it, or `Failed` if it couldn't be done.
    fn work<T: Stop>(
        &mut self,
        alloc: Global,
        message: Message,
        stop: &T,
        reply: &mut Vec<u8>,
    ) -> Result<Answered, SessionEnd>
        ensures worked { (octets : List ℕ) × (reply.new.items ≡ reply.old.items ++ octets)
            × works (T.may_ask stop.now) self.old message octets self.new result };
}

impl<I: Interpreter, P, S: Stamp, X: Drop> Worker for Engine<I, P, S, X>
where
    P: Publish<Item = Event<X>>,
{
    ghost use Rattle.kernel_session.specs.Work.{WorksOne};
    ghost use Rattle.kernel_engine.specs.World.{world_of};

    ghost works = { WorksOne (world_of I.meaning P.sink S.stamp) };

    fn work<T: Stop>(
        &mut self,
        alloc: Global,
        message: Message,
        stop: &T,
        reply: &mut Vec<u8>,
    ) -> Result<Answered, SessionEnd> {
        match self.take(alloc, Frames::new(message.into_vec()), stop) {
            Done::Handled(handled) => finish(alloc, handled, reply),
            Done::Ignored => Ok(Answered::Done),
            Done::Lost => Ok(Answered::Dropped),
            Done::Refused(fault) => Err(SessionEnd::Failed(fault)),
        }
    }
}

/// Adds the text of the reply to a request that was handled, if it has one, and ends the session if the request asked
/// for a shutdown.
fn finish(alloc: Global, handled: Response, reply: &mut Vec<u8>) -> Result<Answered, SessionEnd>
    requires { IfSome handled.reply (λ frames. 0 < length frames) }
    ensures finishes { (octets : List ℕ) × (reply.new.items ≡ reply.old.items ++ octets)
        × WritesHandled handled octets result }
{
    let finished = tell(alloc, &handled, reply);
    drop(handled);
    finished
}

/// Adds the text of the reply to a request that was handled, and ends the session if it asked for a shutdown.
fn tell(alloc: Global, handled: &Response, reply: &mut Vec<u8>) -> Result<Answered, SessionEnd>
    requires { IfSome handled.now.reply (λ frames. 0 < length frames) }
    ensures finishes { (octets : List ℕ) × (reply.new.items ≡ reply.old.items ++ octets)
        × WritesHandled handled.now octets result }
{
    if let Some(frames) = &handled.reply {
        if write_message(alloc, frames.as_slice(), reply).is_err() {
            return Err(SessionEnd::Failed(EngineFault::Memory));
        }
    }
    match handled.order {
        Order::End { restart } => Err(SessionEnd::Shutdown(restart)),
        Order::GoOn | Order::Interrupt => Ok(Answered::Done),
    }
}

/// A worker with what may stop it.
#[derive(Drop)]
struct Working<'e, 's, E, T> {
    /// What answers the messages.
    worker: &'e mut E,
    /// What may stop it.
    stop: &'s T,
}

impl<E: Worker, T: Stop> Server for Working<'_, '_, E, T> {
    type End = SessionEnd;

    ghost use Rattle.std.specs.Prelude.{[], ◌∷◌};

    ghost answers = { λ old message reply new result.
        E.works (T.may_ask old.stop.now) old.worker.now message reply new.worker.now result
        × (new.stop ≡ old.stop) };

    ghost names = { λ working. working.worker.ghost_name ∷ [] };

    fn answer(
        &mut self,
        alloc: Global,
        message: Message,
        reply: &mut Vec<u8>,
    ) -> Result<Answered, SessionEnd> {
        self.worker.work(alloc, message, self.stop, reply)
    }
}

/// A session of a worker with a peer.
fn employ<R: Inlet, W: Outlet, E: Worker, T: Stop>(
    alloc: Global,
    reader: &mut R,
    writer: &mut W,
    worker: &mut E,
    stop: &T,
    turns: u64,
) -> Ending<SessionEnd>
    ensures { (left : ℕ) × (dropped : Bool) × (ended : Ending SessionEnd)
        × ServesPeer dropped (E.works (T.may_ask stop.now)) Router worker.old
        (devices_at (R.inflow reader.old) turns (W.outflow writer.old))
        (devices_at (R.inflow reader.new) left (W.outflow writer.new)) worker.new ended
        × (result ≡ told_ending dropped ended) }
{
    let mut working = Working { worker, stop };
    serve(
        alloc,
        reader,
        writer,
        &mut working,
        SocketType::Router,
        turns,
    )
}

/// A session of an engine with a peer, as a ROUTER: greeting out, greeting in, READY out, READY in. After that each
/// message is opened, done as a request and its reply written, and each PING is answered by its PONG. At most `turns`
/// reads are made.
///
/// A message that is no request under the engine's key is dropped. A request for a shutdown ends the session as
/// `Shutdown` with whether to restart. Its reply is written, and nothing is read after it. If the engine refuses a
/// request, the session ends `Failed` with its fault. A message that no memory was left to open is dropped. The session
/// goes on then, and ends as the connection, `Failed` with `Memory`. If all ids were given, it ends the session
/// `Failed` with `Worn`.
pub fn session<R: Inlet, W: Outlet, I: Interpreter, P, S: Stamp, X: Drop, T: Stop>(
    alloc: Global,
    reader: &mut R,
    writer: &mut W,
    engine: &mut Engine<I, P, S, X>,
    stop: &T,
    turns: u64,
) -> Ending<SessionEnd>
where
    P: Publish<Item = Event<X>>,
    // What the engine made of each message, whatever ended the session.
    ensures serves { (left : ℕ) × (dropped : Bool) × (ended : Ending SessionEnd)
        × ServesPeer dropped (WorksOne (world_of I.meaning P.sink S.stamp) (T.may_ask stop.now)) Router engine.old
        (devices_at (R.inflow reader.old) turns (W.outflow writer.old))
        (devices_at (R.inflow reader.new) left (W.outflow writer.new)) engine.new ended
        × (result ≡ told_ending dropped ended) }

    // If what the peer sent ended it, or a read or a write did: what was written and published is the session's, for
    // some courses and dates.
    ensures tells { IsToldWhole result → (left : ℕ) × Exchange (λ octets written.
        TellsSession (world_of I.meaning P.sink S.stamp) (T.may_ask stop.now) engine.old octets written engine.new
        result) (devices_at (R.inflow reader.old) turns (W.outflow writer.old))
        (devices_at (R.inflow reader.new) left (W.outflow writer.new)) (of_connection result) }

    // However it ended, the engine publishes to the sink that it had.
    ensures sink { P.sink.is_same engine.old.publishing.sink engine.new.publishing.sink }
{
    employ(alloc, reader, writer, engine, stop, turns)
}
