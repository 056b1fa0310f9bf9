//! The socket of a connection, which the threads that serve it share.

ghost use Rattle.libc.specs.Net.{SockOption};
ghost use Rattle.std.specs.Io.{WritesAtMost};

use kernel_limits::limits::{
    ALIVE_AGAIN_SECONDS, ALIVE_SECONDS, ALIVE_TIMES, REPLY_MILLIS, SEND_BUFFER,
};
use libc::net;
use libc::types::pollfd;
use std::alloc::{AllocError, Global};
use std::io::{self, ErrorKind, Read, Write};
use std::net::{Shutdown, TcpStream};
use std::os::fd::{AsRawFd, RawFd};
use std::sync::Arc;
use std::sync::atomic::{AtomicBool, Ordering};
use std::time::Duration;

/// For how many milliseconds one try to write waits for room.
const PAUSE: u64 = 500;

/// How many tries to write, one after the other, may find no room. Then the write has failed.
const TRIES: u64 = REPLY_MILLIS / PAUSE;

/// How many octets are dropped at once of a peer that isn't heard any more.
const DROPPED: usize = 4_096;

/// What all share that are cloned of one socket.
#[derive(Drop)]
struct Shared {
    /// The system's socket.
    stream: TcpStream,
    /// Whether nothing is read any more.
    is_ended: AtomicBool,
    /// Whether nothing is written any more, either.
    is_shut: AtomicBool,
}

/// The socket of a connection. All that are cloned of one share its file descriptor, which is closed with the last.
#[derive(Drop)]
pub struct Socket {
    /// What they share.
    shared: Arc<Shared, Global>,
}

impl Socket {
    /// The socket of a connection, which sends at once what is written to it.
    ///
    /// # Errors
    ///
    /// If it refuses what is set, or memory is refused. The connection is closed then.
    pub fn new(alloc: Global, stream: TcpStream) -> io::Result<Socket> {
        stream.set_nodelay(true)?;
        stream.set_write_timeout(Some(Duration::from_millis(PAUSE)))?;
        set_options(&stream);
        let shared = Shared {
            stream,
            is_ended: AtomicBool::new(false),
            is_shut: AtomicBool::new(false),
        };
        Ok(Socket {
            shared: Arc::new(alloc, shared)?,
        })
    }

    /// The same socket once more.
    ///
    /// # Errors
    ///
    /// If it has too many owners.
    pub fn try_clone(&self) -> Result<Socket, AllocError> {
        Ok(Socket {
            shared: Arc::try_clone(&self.shared)?,
        })
    }

    /// Writes the first octets of a piece, if there is room for some within half a second, and answers how many.
    ///
    /// # Errors
    ///
    /// `TimedOut` if there was no room, and if the write itself fails. The socket stays as it is.
    fn try_put(&self, piece: &[u8]) -> io::Result<usize>
        ensures { WritesAtMost result piece.now }
    {
        let mut stream: &TcpStream = &self.shared.stream;
        match stream.write(piece) {
            Err(error) if is_pause(error.kind()) => Err(ErrorKind::TimedOut.into()),
            written => written,
        }
    }

    /// Writes the first octets of a piece, once there is room for some, and answers how many.
    ///
    /// # Errors
    ///
    /// `TimedOut` if there was no room for a minute, and if the write itself fails. The socket stays as it is.
    fn put(&self, piece: &[u8]) -> io::Result<usize>
        ensures { WritesAtMost result piece.now }
    {
        for _ in 0..TRIES {
            match self.try_put(piece) {
                Err(error) if error.kind() == ErrorKind::TimedOut && !self.is_shut() => {}
                written => return written,
            }
        }
        Err(ErrorKind::TimedOut.into())
    }

    /// Waits until there is room for octets, or the connection broke, for so many milliseconds at
    /// most.
    pub(crate) fn wait_for_room(&self, millis: i32) {
        let mut looked = [pollfd {
            fd: self.as_raw_fd(),
            events: net::POLLOUT,
            revents: 0,
        }];
        let _ = net::poll(&mut looked, millis);
    }

    /// Whether nothing is read any more.
    pub fn is_ended(&self) -> bool {
        self.shared.is_ended.load(Ordering::SeqCst)
    }

    /// Whether the socket was shut down.
    pub fn is_shut(&self) -> bool {
        self.shared.is_shut.load(Ordering::SeqCst)
    }

    /// Whether the peer has closed its side, or the connection broke, though something may still be to be read.
    pub fn has_hung_up(&self) -> bool {
        let mut looked = [pollfd {
            fd: self.as_raw_fd(),
            events: net::POLLRDHUP,
            revents: 0,
        }];
        let has_hung_up = net::poll(&mut looked, 0) > 0;
        // The system tells the same once the socket was shut down here, which is noted before.
        has_hung_up && !self.is_shut()
    }

    /// Ends what is read: each further read finds no octet any more.
    pub fn end_reads(&self) {
        self.shared.is_ended.store(true, Ordering::SeqCst);
    }

    /// Shuts the socket down, for reads too: one that waits ends.
    pub fn shut(&self) {
        self.finish(Shutdown::Both);
    }

    /// Says that nothing is written or heard any more. What was written is still sent, and a read that waits ends soon.
    pub fn end_writes(&self) {
        self.finish(Shutdown::Write);
    }

    /// A write failed: shuts the socket down, unless nothing was to be written any more.
    pub fn fail(&self) {
        if !self.is_shut() {
            self.shut();
        }
    }

    /// Says that nothing is read or written any more, and shuts the socket down so far.
    fn finish(&self, how: Shutdown) {
        self.end_reads();
        self.shared.is_shut.store(true, Ordering::SeqCst);
        // One that its peer has shut down already is fine.
        let _ = self.shared.stream.shutdown(how);
    }

    /// Drops octets that the peer has sent, once some come within so many milliseconds, and answers whether more may
    /// come.
    pub(crate) fn drops_some(&self, millis: u64) -> bool {
        let mut looked = [pollfd {
            fd: self.as_raw_fd(),
            events: net::POLLIN,
            revents: 0,
        }];
        if net::poll(&mut looked, i32::try_from(millis).unwrap_or(i32::MAX)) <= 0 {
            return false;
        }
        let mut stream: &TcpStream = &self.shared.stream;
        matches!(stream.read(&mut [0; DROPPED]), Ok(count) if count > 0)
    }
}

impl AsRawFd for Socket {
    fn as_raw_fd(&self) -> RawFd {
        self.shared.stream.as_raw_fd()
    }
}

impl Read for Socket {
    fn read(&mut self, buf: &mut [u8]) -> io::Result<usize> {
        if self.is_ended() {
            return Ok(0);
        }
        let mut stream: &TcpStream = &self.shared.stream;
        stream.read(buf)
    }
}

/// If a write fails the socket is shut down: its peer learns that it gets no more, and isn't heard any more either.
impl Write for Socket {
    fn write(&mut self, buf: &[u8]) -> io::Result<usize> {
        let written = self.put(buf);
        if written.is_err() {
            self.fail();
        }
        written
    }

    fn flush(&mut self) -> io::Result<()> {
        Ok(())
    }
}

/// Gives a socket a small send buffer, so that what was written to it was taken by its peer but for little. It has the
/// system ask whether a silent peer's machine is still there, so that one that vanished without a word holds no place.
fn set_options(stream: &TcpStream) {
    set_option(stream, net::SOL_SOCKET, net::SO_SNDBUF, SEND_BUFFER);
    set_option(stream, net::SOL_SOCKET, net::SO_KEEPALIVE, 1);
    set_option(stream, net::IPPROTO_TCP, net::TCP_KEEPIDLE, ALIVE_SECONDS);
    set_option(
        stream,
        net::IPPROTO_TCP,
        net::TCP_KEEPINTVL,
        ALIVE_AGAIN_SECONDS,
    );
    set_option(stream, net::IPPROTO_TCP, net::TCP_KEEPCNT, ALIVE_TIMES);
}

/// Sets an option of a socket. If the system refuses, it stays as it was.
fn set_option(stream: &TcpStream, level: i32, name: i32, set: i32)
    requires { SockOption level name }
{
    let mut value = [0u8; 16];
    let (front, _) = value.split_at_mut(4);
    front.copy_from_slice(&set.to_ne_bytes());
    let _ = unsafe { net::setsockopt(stream.as_raw_fd(), level, name, &value, 4) };
}

/// Whether a try to write found no room, or the system interrupted it.
fn is_pause(kind: ErrorKind) -> bool {
    matches!(
        kind,
        ErrorKind::WouldBlock | ErrorKind::TimedOut | ErrorKind::Interrupted
    )
}
