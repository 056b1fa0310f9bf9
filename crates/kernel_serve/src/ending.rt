//! The thread that accepts a port's connections: starting it, and ending it.

use crate::fault::{Port, ServeFault};
use crate::serving::Subscribers;
use iopub_relay::{Buffered, Rest};
use kernel_limits::grace_left;
use kernel_limits::limits::END_WRITE_MILLIS;
use kernel_peers::{ServedPort, Service, accept_all};
use kernel_sockets::{Gate, Server};
use std::alloc::{AllocError, Global};
use std::net::TcpListener;
use std::sync::{Arc, Wait};
use std::thread;
use std::thread::{JoinHandle, Threads};
use std::time::{Clock, Duration};

/// For how many milliseconds it is waited for a thread that was woken.
const PAUSE: u64 = 1;

/// A port that is served.
#[derive(Drop)]
pub(crate) struct Acceptor {
    /// What its threads share.
    gate: Arc<Gate, Global>,
    /// The thread that accepts.
    thread: JoinHandle<()>,
}

/// Serves a port in a thread of its own.
///
/// # Errors
///
/// `CannotBind` if the system refuses what is set or has no file descriptor left, `OutOfMemory` and `NoThread`.
pub(crate) fn start<R>(
    rt: R,
    alloc: Global,
    bound: (Port, TcpListener),
    service: Service<R>,
    server: Arc<Server, Global>,
) -> Result<Acceptor, ServeFault>
where
    R: Threads + Wait + Clock + Copy + Send + Sync + Drop + 'static,
{
    let (port, listener) = bound;
    let (gate, shared) = match begin(alloc, port, &listener) {
        Ok(begun) => begun,
        Err(fault) => {
            drop(listener);
            drop(service);
            drop(server);
            return Err(fault);
        }
    };
    let port = ServedPort {
        service,
        gate: shared,
        server,
    };
    match thread::spawn(&rt, move || accept_all(rt, alloc, listener, port)) {
        Ok(thread) => Ok(Acceptor { gate, thread }),
        Err(error) => {
            drop(error);
            drop(gate);
            Err(ServeFault::NoThread)
        }
    }
}

/// The gate of a port, for the thread that accepts too, which never waits for a connection that has gone again.
///
/// # Errors
///
/// `CannotBind` if the system refuses that or has no file descriptor left, and `OutOfMemory`.
fn begin(
    alloc: Global,
    port: Port,
    listener: &TcpListener,
) -> Result<(Arc<Gate, Global>, Arc<Gate, Global>), ServeFault> {
    let (Ok(()), Some(gate)) = (listener.set_nonblocking(true), Gate::new(alloc)) else {
        return Err(ServeFault::CannotBind(port));
    };
    let gate = Arc::new(alloc, gate)?;
    match Arc::try_clone(&gate) {
        Ok(shared) => Ok((gate, shared)),
        Err(AllocError) => {
            drop(gate);
            Err(ServeFault::OutOfMemory)
        }
    }
}

/// Ends all that serves ports, and waits until it ended. What is left for peers is written as long as that takes no
/// more than a moment; who takes longer is closed.
pub(crate) fn end_all<R: Threads + Wait + Clock + Drop>(
    rt: &R,
    acceptors: Vec<Acceptor>,
    server: &Server,
    subscribers: Subscribers<R>,
) {
    end_ports(rt, &acceptors);
    linger(rt, &acceptors, server, subscribers);
    for acceptor in acceptors.iter() {
        acceptor.gate.shut_all(rt);
    }
    for acceptor in acceptors {
        acceptor.thread.join(rt);
    }
}

/// Says that ports end, and ends what their connections read.
fn end_ports<R: Wait>(rt: &R, acceptors: &[Acceptor]) {
    for acceptor in acceptors {
        acceptor.gate.end();
        // Those that are open are ended at once, and not only when the thread that accepts has seen it.
        acceptor.gate.end_reads(rt);
    }
}

/// Writes what is kept for subscribers still, and waits until the threads of all connections ended, or
/// for a moment.
fn linger<R: Wait + Clock + Drop>(
    rt: &R,
    acceptors: &[Acceptor],
    server: &Server,
    mut subscribers: Subscribers<R>,
) {
    let began = server.millis(rt);
    for _ in 0..END_WRITE_MILLIS {
        // Who has got everything is let go of, so that its connection ends.
        subscribers.retain_mut(|left| left.1.flush() != Rest::Nothing);
        let is_over = grace_left(began, END_WRITE_MILLIS, server.millis(rt)) == 0;
        if is_over || acceptors.iter().all(|acceptor| acceptor.gate.is_empty(rt)) {
            break;
        }
        thread::sleep(rt, Duration::from_millis(PAUSE));
    }
    drop(subscribers);
}
