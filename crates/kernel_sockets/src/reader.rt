//! What is read of a connection, within the limits of a handshake and of a message.

ghost use Rattle.std.specs.Io.{ReadsAtMost};

use crate::bell::Woken;
use crate::gate::Gate;
use crate::server::Server;
use crate::socket::Socket;
use kernel_limits::limits::SPARE_OCTETS;
use kernel_limits::{Meter, Part};
use std::alloc::{AllocError, Global};
use std::io::{self, ErrorKind, Read};
use std::sync::{Arc, Mutex, Wait};
use std::thread;
use std::time::{Clock, Duration};

/// After how many milliseconds a reader looks whether another thread has ended the connection.
const END_LOOK: u64 = 1_000;

/// After how many milliseconds a reader that found no memory looks again.
const MEMORY_LOOK: u64 = 50;

/// What a connection's reader and those who look at what it read share.
#[derive(Drop)]
pub struct Gauge {
    /// The connection's number.
    number: u64,
    /// What it has unfinished.
    meter: Mutex<Meter>,
    /// What all share.
    server: Arc<Server, Global>,
}

impl Gauge {
    /// The gauge of a connection that begins to shake hands now.
    pub fn new<R: Clock>(rt: &R, server: Arc<Server, Global>) -> Gauge {
        let meter = Meter::shake(server.millis(rt));
        Gauge {
            number: server.next_number(),
            meter: Mutex::new(meter),
            server,
        }
    }

    /// The time, in milliseconds since the server began.
    pub fn now<R: Clock>(&self, rt: &R) -> u64 {
        self.server.millis(rt)
    }

    /// Hands were shaken: from now on each message may have so many octets.
    pub fn open<R: Wait>(&self, rt: &R, most: usize) {
        self.meter.lock(rt).open(most);
    }

    /// So many octets came after the last whole message, which wasn't looked at yet.
    pub fn note<R: Wait + Clock>(&self, rt: &R, rest: usize) {
        let now = self.server.millis(rt);
        self.meter.lock(rt).note(rest, now);
    }

    /// The last whole message was looked at.
    pub fn finish<R: Wait + Clock>(&self, rt: &R) {
        let now = self.server.millis(rt);
        let mut meter = self.meter.lock(rt);
        let was_much = meter.excess() > 0;
        meter.finish(now);
        let is_much = meter.excess() > 0;
        drop(meter);
        if was_much && !is_much {
            self.server.free(rt, self.number);
        }
    }

    /// The connection's reader goes on, which didn't read for a while.
    pub fn resume<R: Wait + Clock>(&self, rt: &R) {
        let now = self.server.millis(rt);
        self.meter.lock(rt).resume(now);
    }

    /// What the connection has unfinished.
    fn meter<R: Wait>(&self, rt: &R) -> Meter {
        *self.meter.lock(rt)
    }

    /// Counts octets that were read of a socket.
    fn count<R: Wait + Clock>(&self, rt: &R, octets: usize, socket: &Socket) {
        let now = self.server.millis(rt);
        let mut meter = self.meter.lock(rt);
        meter.read(octets, now);
        let excess = meter.excess();
        drop(meter);
        if excess > 0 {
            let part = Part {
                number: self.number,
                octets: excess,
            };
            if self.server.hold(rt, part, socket) {
                self.resume(rt);
            }
        }
    }

    /// Nothing is read any more.
    fn end<R: Wait>(&self, rt: &R) {
        self.server.free(rt, self.number);
    }
}

/// What watches over what is read of a connection.
#[derive(Drop)]
pub(crate) struct Watched {
    /// What counts.
    pub(crate) gauge: Arc<Gauge, Global>,
    /// What ends waits.
    pub(crate) gate: Arc<Gate, Global>,
}

/// What is read of a connection. If a handshake or a message has more octets than it may, or takes longer, the
/// connection is closed. Without memory no message is begun, so that what a peer sends waits and isn't lost.
pub struct Reader<R: Wait + Clock + Drop> {
    /// The handle to wait by.
    rt: R,
    /// Where memory comes from.
    alloc: Global,
    /// What counts.
    gauge: Arc<Gauge, Global>,
    /// What ends its waits.
    gate: Arc<Gate, Global>,
    /// The socket.
    socket: Socket,
}

impl<R: Wait + Clock + Drop> Reader<R> {
    /// What is read of this socket.
    pub(crate) fn new(rt: R, alloc: Global, guest: Watched, socket: Socket) -> Reader<R> {
        let Watched { gauge, gate } = guest;
        Reader {
            rt,
            alloc,
            gauge,
            gate,
            socket,
        }
    }

    /// Waits until something is to be read, for so many milliseconds or any time.
    ///
    /// # Errors
    ///
    /// If the time passed, or none is left.
    fn wait(&self, millis: Option<u64>) -> io::Result<()> {
        if millis == Some(0) {
            return Err(ErrorKind::TimedOut.into());
        }
        for _ in self.rt.forever() {
            match self
                .gate
                .wait(&self.rt, &self.socket, millis.unwrap_or(END_LOOK))
            {
                Woken::Bell => self.socket.end_reads(),
                Woken::Socket => {}
                Woken::Time if millis.is_some() => return Err(ErrorKind::TimedOut.into()),
                // Another thread may have ended the connection.
                Woken::Time if self.socket.is_ended() => {}
                Woken::Time => continue,
            }
            return Ok(());
        }
        unreachable!()
    }

    /// Reads within the limits.
    ///
    /// # Errors
    ///
    /// If a limit is reached, or the read fails.
    fn read_within(&mut self, buf: &mut [u8]) -> io::Result<usize>
        ensures { ReadsAtMost result buf.new }
    {
        let meter = self.gauge.meter(&self.rt);
        let room = meter.room().min(buf.len());
        if room == 0 && !buf.is_empty() {
            return Err(ErrorKind::InvalidData.into());
        }
        let left = meter.left(self.gauge.now(&self.rt));
        let spare = match left {
            None => self.spare(),
            Some(_) => None,
        };
        let waited = self.wait(left);
        drop(spare);
        if let Err(error) = waited {
            return Err(error);
        }
        let (front, _) = buf.split_at_mut(room);
        self.read_counted(front)
    }

    /// Memory to be held until a message begins. It is waited for, unless nothing is read any more, or the peer has
    /// left, so that no more can come than is there.
    fn spare(&self) -> Option<Vec<u8>> {
        for _ in self.rt.forever() {
            match self.try_spare() {
                Ok(spare) => return Some(spare),
                Err(AllocError) if self.socket.is_ended() || self.socket.has_hung_up() => {
                    return None;
                }
                Err(AllocError) => thread::sleep(&self.rt, Duration::from_millis(MEMORY_LOOK)),
            }
        }
        unreachable!()
    }

    /// Memory to be held, if there is as much once more, for what is in work.
    ///
    /// # Errors
    ///
    /// If there isn't.
    fn try_spare(&self) -> Result<Vec<u8>, AllocError> {
        let spare = Vec::with_capacity(self.alloc, SPARE_OCTETS)?;
        match Vec::<u8>::with_capacity(self.alloc, SPARE_OCTETS) {
            Ok(_) => Ok(spare),
            Err(AllocError) => {
                drop(spare);
                Err(AllocError)
            }
        }
    }

    /// Reads, and counts what was read.
    ///
    /// # Errors
    ///
    /// If the read fails.
    fn read_counted(&mut self, buf: &mut [u8]) -> io::Result<usize>
        ensures { ReadsAtMost result buf.new }
    {
        let result = self.socket.read(buf);
        if let Ok(count) = &result {
            // At the end, or once the socket was shut down, nothing is read that counts.
            if *count > 0 {
                self.gauge.count(&self.rt, *count, &self.socket);
            }
        }
        result
    }
}

impl<R: Wait + Clock + Drop> Read for Reader<R> {
    fn read(&mut self, buf: &mut [u8]) -> io::Result<usize> {
        let result = self.read_within(buf);
        if let Err(error) = &result {
            if error.kind() != ErrorKind::Interrupted {
                self.socket.shut();
            }
        }
        result
    }
}

impl<R: Wait + Clock + Drop> Drop for Reader<R> {
    fn drop(self) {
        let Reader {
            rt,
            alloc: _,
            gauge,
            gate,
            socket,
        } = self;
        gauge.end(&rt);
        drop(gauge);
        drop(gate);
        drop(socket);
        drop(rt);
    }
}
