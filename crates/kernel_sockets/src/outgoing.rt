//! What the relay writes to for a subscriber: the subscriber's own socket, and what is kept while
//! that has no room. The relay's thread alone has it, and a write waits for nobody.

ghost use Rattle.std.specs.Prelude.{◌≡◌, ◌≤◌, [], length, take, true, false, IfOk, IfSome, Some};
ghost use Rattle.kernel_outlet.specs.Pipe.{AddsUp, Flows, Piping, new_pipe};
ghost use Rattle.zmtp_wire.specs.Device.{Outflow, WriteAdds};
ghost use Rattle.std.specs.Io.{WritesAtMost};
ghost use Rattle.kernel_sockets.specs.Outgoing.{IsNotTaken, Tries, KeepsFirst};

use crate::server::Server;
use crate::socket::Socket;
use ghost_log::Log;
use iopub_relay::{Buffered, Rest};
use kernel_limits::{Pace, most_of, share_of, waits_on};
use kernel_outlet::{Flushed, Pipe, Sent, Spout};
use libc::net;
use std::alloc::{AllocError, Global};
use std::marker::Model;
use std::os::fd::AsRawFd;
use std::sync::{Arc, Wait};
use std::time::Clock;
use zmtp_wire::{Outlet, WriteFailed};

/// For how many milliseconds a socket is waited for, before its pace is looked at, if a write has
/// to wait after all.
const LOOK: i32 = 50;

/// How many sends one flush makes, at most: each takes a chunk of 64 KiB or less.
const SENDS: u64 = 64;

/// How many octets are put before they are sent without being asked for.
const AHEAD: usize = 64 << 10;

/// A subscriber's socket, as octets leave by it at once.
#[derive(Drop)]
pub struct Outgoing {
    /// The socket.
    socket: Socket,
    /// The octets that it accepted, as its sends say.
    accepted: Log<u8>,
}

impl Outgoing {
    /// A socket that has accepted nothing yet.
    fn new(socket: Socket) -> Outgoing
        ensures { result.accepted.items ≡ [] }
    {
        Outgoing {
            socket,
            accepted: Log::new(),
        }
    }
}

impl Spout for Outgoing {
    ghost accepted = { λ outgoing. outgoing.accepted.items };

    fn send(&mut self, piece: &[u8]) -> Sent {
        let moved = unsafe {
            net::send(
                self.socket.as_raw_fd(),
                piece,
                net::MSG_DONTWAIT | net::MSG_NOSIGNAL,
            )
        };
        if moved < 0 {
            return refused();
        }
        let count = moved as usize;
        let (front, _) = piece.split_at(count);
        self.accepted = self.accepted.and_all(front);
        Sent::Took(count)
    }
}

/// What it means that the system sent nothing, by the number of its error.
fn refused() -> Sent
    ensures { IsNotTaken result }
{
    match os::errno() {
        libc::EAGAIN | libc::EINTR => Sent::Full,
        _ => Sent::Broken,
    }
}

/// What became of a piece.
#[derive(Clone, Copy)]
enum Tried {
    /// So many of its first octets were put.
    Put(usize),
    /// There is no room for one, and the subscriber is waited for.
    Waits,
    /// The subscriber has failed.
    Failed,
}

/// What the relay writes to for a subscriber. The relay's thread alone has it.
pub struct SocketWriter<R: Wait + Clock + Drop> {
    /// The handle to read the clock by.
    rt: R,
    /// What all share.
    server: Arc<Server, Global>,
    /// What was put, is kept, and was accepted. It lies elsewhere: the queue has a place for a writer
    /// in each entry.
    pipe: Box<Pipe<Outgoing>, Global>,
    /// How many octets were put since sends were last tried.
    unsent: usize,
    /// What the socket took.
    pace: Pace,
    /// Since when the relay waits for it, if it does.
    waits_since: Option<u64>,
}

impl<R: Wait + Clock + Drop> Model for SocketWriter<R> {
    ghost use Rattle.kernel_outlet.specs.Pipe.{Piping};

    ghost Value = { Piping };

    ghost view = { λ writer. writer.pipe.value };
}

impl<R: Wait + Clock + Drop> SocketWriter<R> {
    /// The writer of a subscriber for whom nothing has come yet.
    ///
    /// # Errors
    ///
    /// If memory is refused.
    pub fn new(
        rt: R,
        alloc: Global,
        server: Arc<Server, Global>,
        socket: Socket,
    ) -> Result<SocketWriter<R>, AllocError>
        ensures { IfOk result (λ writer. writer ≡ new_pipe) }
    {
        match Box::new(alloc, Pipe::new(alloc, Outgoing::new(socket))) {
            Ok(pipe) => {
                server.opens_writer();
                Ok(SocketWriter {
                    rt,
                    server,
                    pipe,
                    unsent: 0,
                    pace: Pace::begin(0),
                    waits_since: None,
                })
            }
            Err(refused) => {
                drop(refused);
                drop(server);
                Err(AllocError)
            }
        }
    }

    /// What is true of every writer: what its socket accepted is a beginning of what was put, and
    /// unless it has failed, that and then what is kept is all that was put. Does nothing.
    pub fn adds_up(&self)
        ensures { AddsUp self.now.put self.now.accepted self.now.kept self.now.has_failed }
    {
        self.pipe.adds_up();
    }

    /// Sends what is kept, as far as there is room, and answers what is kept still.
    fn pass_on(&mut self) -> Rest
        ensures { Flows self.old self.new }
    {
        self.unsent = 0;
        let before = self.pipe.len();
        if before == 0 {
            return Rest::Nothing;
        }
        if let Flushed::Failed = self.pipe.flush(SENDS) {
            self.pipe.spout().socket.fail();
            self.note_wasted();
        }
        let after = self.pipe.len();
        self.server.keeps(before, after);
        if after < before {
            let now = self.server.millis(&self.rt);
            self.pace.take((before - after) as u64, now);
        }
        rest_of(before, after)
    }

    /// Keeps the first octets of a piece, if there is room for some, and answers how many.
    fn keep(&mut self, piece: &[u8]) -> Option<usize>
        requires { self.old.has_failed ≡ false }
        ensures { KeepsFirst self.old self.new piece.now result }
    {
        let before = self.pipe.len();
        let most = most_of(before, self.server.beyond());
        if before >= most {
            return None;
        }
        match self.pipe.put(piece, most) {
            Ok(count) => {
                if before == 0 {
                    self.pace = Pace::begin(self.server.millis(&self.rt));
                }
                let after = self.pipe.len();
                self.server.keeps(before, after);
                self.unsent = self.unsent.saturating_add(count);
                Some(count)
            }
            Err(AllocError) => None,
        }
    }

    /// Whether the subscriber's share is full.
    fn is_full(&self) -> bool {
        let kept = self.pipe.len();
        kept >= share_of(kept, self.server.beyond())
    }

    /// Whether the subscriber is waited for once its share is full: it hasn't left, it keeps the
    /// least pace, and the kernel has time.
    fn is_waited_for(&self) -> bool {
        let now = self.server.millis(&self.rt);
        waits_on(self.server.ending_since(&self.rt), now)
            && !self.pipe.spout().socket.is_ended()
            && !self.pace.is_slow(self.server.grace(now), now)
    }

    /// Notes whether the relay waits for the subscriber since its share is full.
    fn note_waiting(&mut self)
        ensures { self.new ≡ self.old }
    {
        if !self.is_full() {
            self.waits_since = None;
        } else if self.is_waited_for() {
            self.note_wait();
        } else {
            self.note_wasted();
        }
    }

    /// Notes that the relay waits for the subscriber.
    fn note_wait(&mut self)
        ensures { self.new ≡ self.old }
    {
        if self.waits_since.is_none() {
            self.waits_since = Some(self.server.millis(&self.rt));
        }
    }

    /// Notes that the relay waits for the subscriber no longer, and did so in vain.
    fn note_wasted(&mut self)
        ensures { self.new ≡ self.old }
    {
        if let Some(since) = self.waits_since {
            self.server.wastes(&self.rt, since);
        }
        self.waits_since = None;
    }

    /// Waits a moment for room, if the subscriber is waited for, and else gives it up. Answers
    /// whether it waited.
    fn wait_or_fail(&mut self) -> bool
        ensures { Flows self.old self.new }
    {
        if self.is_waited_for() {
            self.note_wait();
            self.pipe.spout().socket.wait_for_room(LOOK);
            self.pass_on();
            return true;
        }
        self.give_up();
        false
    }

    /// Gives the subscriber up: what is kept is dropped, and its socket is shut down. For how long
    /// the relay waited for it counts as wasted.
    fn give_up(&mut self)
        ensures { Flows self.old self.new }
    {
        let before = self.pipe.len();
        self.pipe.fail();
        self.server.keeps(before, 0);
        self.pipe.spout().socket.shut();
        self.note_wasted();
    }

    /// Puts the first octets of a piece, if there is room for some. A subscriber whose share is
    /// full is given up if it isn't waited for.
    fn try_to_put(&mut self, piece: &[u8]) -> Tried
        ensures { Tries self.old self.new piece.now result }
    {
        if self.pipe.has_failed() {
            return Tried::Failed;
        }
        if self.is_full() && !self.is_waited_for() {
            return if self.passes() {
                Tried::Waits
            } else {
                Tried::Failed
            };
        }
        match self.keep(piece) {
            Some(count) => {
                if self.unsent >= AHEAD {
                    self.pass_on();
                }
                Tried::Put(count)
            }
            None => {
                if self.pass_on_or_wait() {
                    Tried::Waits
                } else {
                    Tried::Failed
                }
            }
        }
    }

    /// Sends what is kept for a subscriber whose share is full and whose pace was too slow, and then
    /// gives it up if that is still so. Its pace may be of a while ago, in which nothing was sent.
    /// Answers whether it wasn't.
    fn passes(&mut self) -> bool
        ensures { Flows self.old self.new }
    {
        self.pass_on();
        let is_slow = self.is_full() && !self.is_waited_for();
        if is_slow {
            self.give_up();
        }
        !is_slow
    }

    /// Sends what is kept, and then waits for room, or gives the subscriber up. Answers whether it
    /// waited.
    fn pass_on_or_wait(&mut self) -> bool
        ensures { Flows self.old self.new }
    {
        self.pass_on();
        self.wait_or_fail()
    }
}

/// What is kept still, of so much before.
fn rest_of(before: usize, after: usize) -> Rest {
    if after == 0 {
        Rest::Nothing
    } else if after < before {
        Rest::Less
    } else {
        Rest::Stuck
    }
}

/// A subscriber that left gets what there is room for at once.
impl<R: Wait + Clock + Drop> Drop for SocketWriter<R> {
    fn drop(self) {
        let SocketWriter {
            rt: _,
            server,
            mut pipe,
            unsent: _,
            pace: _,
            waits_since: _,
        } = self;
        server.closes_writer();
        let before = pipe.len();
        let _ = pipe.flush(SENDS);
        server.keeps(before, 0);
        if pipe.has_failed() {
            pipe.spout().socket.fail();
        } else {
            pipe.spout().socket.end_writes();
        }
        drop(pipe);
        drop(server);
    }
}

impl<R: Wait + Clock + Drop> Outlet for SocketWriter<R> {
    ghost use Rattle.kernel_outlet.specs.Pipe.{piping_outflow};

    ghost outflow = { piping_outflow };

    fn write(&mut self, piece: &[u8]) -> Result<usize, WriteFailed> {
        for _ in 0..u64::MAX {
            match self.try_to_put(piece) {
                Tried::Put(count) => return Ok(count),
                Tried::Waits => (),
                Tried::Failed => break,
            }
        }
        self.pipe.refuse();
        Err(WriteFailed)
    }
}

impl<R: Wait + Clock + Drop> Buffered for SocketWriter<R> {
    fn flush(&mut self) -> Rest {
        let rest = self.pass_on();
        self.note_waiting();
        rest
    }

    fn is_crowded(&self) -> bool {
        self.is_full() && self.is_waited_for()
    }
}
