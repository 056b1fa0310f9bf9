//! Accepting the connections of a port, and serving each in a thread of its own.

use crate::service::Service;
use kernel_sockets::{Gate, Gauge, Guest, Server, Socket};
use std::alloc::{AllocError, Global};
use std::net::{TcpListener, TcpStream};
use std::sync::{Arc, Wait};
use std::thread;
use std::thread::{JoinHandle, Threads};
use std::time::{Clock, Duration};

/// For how many milliseconds it is waited after a connection that couldn't be accepted.
const PAUSE: u64 = 10;

/// A connection's thread.
#[derive(Drop)]
struct Serving {
    /// The connection's number.
    id: u64,
    /// The thread.
    thread: JoinHandle<()>,
}

/// A port that is served.
#[derive(Drop)]
pub struct ServedPort<R: Wait + Clock + Drop> {
    /// What its peers are served with.
    pub service: Service<R>,
    /// What its threads share.
    pub gate: Arc<Gate, Global>,
    /// What all share.
    pub server: Arc<Server, Global>,
}

/// Accepts the connections of a port, until it is to end, and serves each in a thread of its own. Then ends what they
/// read, and joins them all.
pub fn accept_all<R>(rt: R, alloc: Global, listener: TcpListener, port: ServedPort<R>)
where
    R: Threads + Wait + Clock + Copy + Send + Sync + Drop + 'static,
{
    let mut threads = Vec::new(alloc);
    admit_all(rt, alloc, &listener, &port, &mut threads);
    let ServedPort {
        service,
        gate,
        server,
    } = port;
    service.close(&rt);
    // Nobody may hold an inbox while it is waited for those who reply.
    drop(service);
    gate.end_reads(&rt);
    for serving in threads {
        serving.thread.join(&rt);
    }
    drop(gate);
    drop(server);
    drop(listener);
}

/// Accepts the connections of a port, until it is to end, and serves each in a thread of its own.
fn admit_all<R>(
    rt: R,
    alloc: Global,
    listener: &TcpListener,
    port: &ServedPort<R>,
    threads: &mut Vec<Serving>,
)
where
    R: Threads + Wait + Clock + Copy + Send + Sync + Drop + 'static,
{
    let mut id = 0u64;
    for _ in rt.forever() {
        let is_new = port.gate.has_newcomer(&rt, listener);
        if port.gate.is_ending() {
            return;
        }
        join_ended(&rt, &port.gate, threads);
        if is_new {
            id = admit_next(rt, alloc, listener, port, id, threads);
        }
    }
    unreachable!()
}

/// Serves the connection that comes after the one of this number, if it can be accepted; else it waits for a moment.
/// Answers the number of the last one.
fn admit_next<R>(
    rt: R,
    alloc: Global,
    listener: &TcpListener,
    port: &ServedPort<R>,
    id: u64,
    threads: &mut Vec<Serving>,
) -> u64
where
    R: Threads + Wait + Clock + Copy + Send + Sync + Drop + 'static,
{
    match next_of(accept(listener), id) {
        Some((stream, next)) => {
            admit(rt, alloc, port, next, stream, threads);
            next
        }
        None => {
            thread::sleep(&rt, Duration::from_millis(PAUSE));
            id
        }
    }
}

/// The next connection of a port. None if it can't be accepted.
fn accept(listener: &TcpListener) -> Option<TcpStream> {
    match listener.accept() {
        Ok((stream, _)) => Some(stream),
        Err(error) => {
            drop(error);
            None
        }
    }
}

/// A connection that was accepted, and its number, after this one. None if there is none of them.
fn next_of(accepted: Option<TcpStream>, id: u64) -> Option<(TcpStream, u64)> {
    let stream = accepted?;
    match id.checked_add(1) {
        Some(next) => Some((stream, next)),
        None => {
            drop(stream);
            None
        }
    }
}

/// Serves a connection in a thread of its own, if there is a place for it, and memory and a thread; else it is closed.
fn admit<R>(
    rt: R,
    alloc: Global,
    port: &ServedPort<R>,
    id: u64,
    stream: TcpStream,
    threads: &mut Vec<Serving>,
)
where
    R: Threads + Wait + Clock + Copy + Send + Sync + Drop + 'static,
{
    let Ok(()) = threads.reserve(1) else {
        drop(stream);
        return;
    };
    let Some((guest, service)) = enter(&rt, alloc, port, id, stream) else {
        return;
    };
    match thread::spawn(&rt, move || serve(rt, alloc, guest, service)) {
        Ok(thread) => threads.push_reserved(Serving { id, thread }),
        Err(error) => {
            drop(error);
            port.gate.leave(&rt, id);
        }
    }
}

/// A connection that has got a place, and what it is served with. None if there is no place for it or no memory is
/// left; the connection is closed then.
fn enter<R: Wait + Clock + Drop>(
    rt: &R,
    alloc: Global,
    port: &ServedPort<R>,
    id: u64,
    stream: TcpStream,
) -> Option<(Guest, Service<R>)> {
    let (guest, service, kept) = welcome(rt, alloc, port, id, stream)?;
    match port.gate.enter(rt, id, kept) {
        Ok(true) => Some((guest, service)),
        Ok(false) | Err(AllocError) => {
            drop(guest);
            drop(service);
            None
        }
    }
}

/// Serves the peer of a connection until that ends, closes it, and takes it out of those that are open.
fn serve<R>(rt: R, alloc: Global, guest: Guest, service: Service<R>)
where
    R: Threads + Wait + Clock + Copy + Send + Sync + Drop + 'static,
{
    service.serve(rt, alloc, &guest);
    guest.close(&rt);
    guest.gate.leave(&rt, guest.id);
    drop(guest);
}

/// What the thread of a connection is to own, and its socket once more. None if the socket refuses what is set, or no
/// memory is left; the connection is closed then.
fn welcome<R: Wait + Clock + Drop>(
    rt: &R,
    alloc: Global,
    port: &ServedPort<R>,
    id: u64,
    stream: TcpStream,
) -> Option<(Guest, Service<R>, Socket)> {
    let (socket, kept) = sockets(alloc, stream)?;
    let Some((guest, service)) = guest_of(rt, alloc, port, id, socket) else {
        drop(kept);
        return None;
    };
    Some((guest, service, kept))
}

/// A connection as those see it who serve it, and what it is served with. None if no memory is left.
fn guest_of<R: Wait + Clock + Drop>(
    rt: &R,
    alloc: Global,
    port: &ServedPort<R>,
    id: u64,
    socket: Socket,
) -> Option<(Guest, Service<R>)> {
    let Some((service, gate, server, gauge)) = shares(rt, alloc, port) else {
        drop(socket);
        return None;
    };
    let guest = Guest {
        id,
        gate,
        server,
        gauge,
        socket,
    };
    Some((guest, service))
}

/// What is shared with the threads of a port, once more, and a gauge of a new connection.
type Shares<R> = (
    Service<R>,
    Arc<Gate, Global>,
    Arc<Server, Global>,
    Arc<Gauge, Global>,
);

/// What is shared with the threads of a port, once more, and a gauge. None if no memory is left.
fn shares<R: Wait + Clock + Drop>(
    rt: &R,
    alloc: Global,
    port: &ServedPort<R>,
) -> Option<Shares<R>> {
    let service = port.service.try_clone().ok()?;
    match held(rt, alloc, port) {
        Some((gate, server, gauge)) => Some((service, gate, server, gauge)),
        None => {
            drop(service);
            None
        }
    }
}

/// The gate and the server once more, and a gauge. None if no memory is left.
fn held<R: Wait + Clock + Drop>(
    rt: &R,
    alloc: Global,
    port: &ServedPort<R>,
) -> Option<(Arc<Gate, Global>, Arc<Server, Global>, Arc<Gauge, Global>)> {
    let gauge = gauge_of(rt, alloc, &port.server)?;
    let (Ok(gate), Ok(server)) = (Arc::try_clone(&port.gate), Arc::try_clone(&port.server)) else {
        drop(gauge);
        return None;
    };
    Some((gate, server, gauge))
}

/// A gauge of a new connection. None if no memory is left.
fn gauge_of<R: Clock>(
    rt: &R,
    alloc: Global,
    server: &Arc<Server, Global>,
) -> Option<Arc<Gauge, Global>> {
    let server = Arc::try_clone(server).ok()?;
    Arc::new(alloc, Gauge::new(rt, server)).ok()
}

/// The socket of a connection, twice. None if it refuses what is set, or no memory is left.
fn sockets(alloc: Global, stream: TcpStream) -> Option<(Socket, Socket)> {
    let socket = Socket::new(alloc, stream).ok()?;
    match socket.try_clone() {
        Ok(kept) => Some((socket, kept)),
        Err(AllocError) => {
            drop(socket);
            None
        }
    }
}

/// Joins the threads of connections that ended.
fn join_ended<R: Threads + Wait>(rt: &R, gate: &Gate, threads: &mut Vec<Serving>) {
    let mut place = 0;
    while place < threads.len() {
        if gate.holds(rt, threads[place].id) {
            place += 1;
        } else {
            threads.swap_remove(place).thread.join(rt);
        }
    }
}
