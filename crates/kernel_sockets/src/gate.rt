//! What the threads round a port share: whether it ends, and the connections that are open.

use crate::bell::{Bell, Woken};
use crate::socket::Socket;
use kernel_limits::{Place, place_of};
use std::alloc::{AllocError, Global};
use std::net::TcpListener;
use std::sync::atomic::{AtomicBool, Ordering};
use std::sync::{Mutex, Wait};

/// How far a connection is.
#[derive(Clone, Copy, Debug, PartialEq, Eq)]
pub enum Standing {
    /// It shakes hands.
    Shaking,
    /// It is served.
    Served,
    /// Its peer has closed its side, and something is still due to it.
    Left,
    /// A newcomer has its place.
    Replaced,
}

/// A connection whose thread hasn't ended.
#[derive(Drop)]
struct Open {
    /// Its number.
    id: u64,
    /// How far it is.
    standing: Standing,
    /// Its socket, to end it by.
    socket: Socket,
}

/// What the threads round a port share.
#[derive(Drop)]
pub struct Gate {
    /// Whether the port is to end.
    ending: AtomicBool,
    /// Wakes the thread that accepts: the port is to end, or a connection's thread ends.
    acceptor: Bell,
    /// Ends what connections read, once it rang.
    readers: Bell,
    /// The connections whose threads haven't ended, by rising numbers.
    open: Mutex<Vec<Open>>,
}

impl Gate {
    /// The gate of a port that has no connection yet. None if the system has no file descriptor left.
    pub fn new(alloc: Global) -> Option<Gate> {
        Some(Gate {
            ending: AtomicBool::new(false),
            acceptor: Bell::new()?,
            readers: Bell::new()?,
            open: Mutex::new(Vec::new(alloc)),
        })
    }

    /// Says that the port is to end, and wakes the thread that accepts.
    pub fn end(&self) {
        self.ending.store(true, Ordering::SeqCst);
        self.acceptor.ring();
    }

    /// Whether the port is to end.
    pub fn is_ending(&self) -> bool {
        self.ending.load(Ordering::SeqCst)
    }

    /// Waits for a connection, until the port is to end or a connection's thread ends, and answers whether there is
    /// one.
    pub fn has_newcomer<R: Wait>(&self, rt: &R, listener: &TcpListener) -> bool {
        let woken = self.acceptor.wait(rt, listener, None);
        self.acceptor.silence();
        woken == Woken::Socket
    }

    /// Counts a connection among those that are open, and answers whether there was a place for it. It may be that of
    /// another, which is closed then.
    ///
    /// # Errors
    ///
    /// If memory is refused. The connection is not among them.
    pub fn enter<R: Wait>(&self, rt: &R, id: u64, socket: Socket) -> Result<bool, AllocError> {
        let mut open = self.open.lock(rt);
        let place = place_among(open.as_slice());
        if place == Place::Taken {
            return Ok(false);
        }
        open.reserve(1)?;
        open.push_reserved(Open {
            id,
            standing: Standing::Shaking,
            socket,
        });
        if let Place::Of(place) = place {
            replace(&mut open, place);
        }
        Ok(true)
    }

    /// Says how far a connection is, unless a newcomer has its place.
    pub fn stand<R: Wait>(&self, rt: &R, id: u64, standing: Standing) {
        let mut open = self.open.lock(rt);
        if let Some(connection) = open.iter_mut().find(|connection| connection.id == id) {
            if connection.standing != Standing::Replaced {
                connection.standing = standing;
            }
        }
    }

    /// Takes a connection out, whose thread ends, and wakes the thread that accepts, which joins it.
    pub fn leave<R: Wait>(&self, rt: &R, id: u64) {
        self.open.lock(rt).retain(|connection| connection.id != id);
        self.acceptor.ring();
    }

    /// Whether a connection's thread hasn't ended.
    pub fn holds<R: Wait>(&self, rt: &R, id: u64) -> bool {
        self.open
            .lock(rt)
            .binary_search_by_key(&id, |connection| connection.id)
            .is_ok()
    }

    /// Whether no connection has a thread any more.
    pub fn is_empty<R: Wait>(&self, rt: &R) -> bool {
        self.open.lock(rt).is_empty()
    }

    /// Ends what connections read: each read that waits, and each one after it, finds no octet any more.
    pub fn end_reads<R: Wait>(&self, rt: &R) {
        for connection in self.open.lock(rt).iter() {
            connection.socket.end_reads();
        }
        self.readers.ring();
    }

    /// Waits until something is to be read of a socket, for so many milliseconds.
    pub(crate) fn wait<R: Wait>(&self, rt: &R, socket: &Socket, millis: u64) -> Woken {
        self.readers.wait(rt, socket, Some(millis))
    }

    /// Closes the connections that are open: what is due to their peers is lost.
    pub fn shut_all<R: Wait>(&self, rt: &R) {
        for connection in self.open.lock(rt).iter() {
            connection.socket.shut();
        }
    }
}

/// What becomes of a newcomer among these connections.
fn place_among(open: &[Open]) -> Place {
    let many = open
        .iter()
        .filter(|connection| connection.standing != Standing::Replaced)
        .count();
    let shaking = oldest(open, Standing::Shaking);
    let left = oldest(open, Standing::Left);
    place_of(many, shaking, left)
}

/// The place of the oldest connection that is so far.
fn oldest(open: &[Open], standing: Standing) -> Option<usize> {
    open.iter()
        .position(|connection| connection.standing == standing)
}

/// Closes a connection whose place a newcomer gets.
fn replace(open: &mut Vec<Open>, place: usize) {
    if let Some(connection) = open.get_mut(place) {
        connection.standing = Standing::Replaced;
        connection.socket.shut();
    }
}
