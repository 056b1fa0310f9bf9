//! A connection, as those see it who serve it.

use crate::gate::{Gate, Standing};
use crate::reader::{Gauge, Reader, Watched};
use crate::server::Server;
use crate::socket::Socket;
use kernel_limits::grace_left;
use kernel_limits::limits::{CLOSE_MILLIS, CLOSE_READS};
use std::alloc::{AllocError, Global};
use std::sync::{Arc, Wait};
use std::time::Clock;
use zmtp_wire::Counted;

/// A connection, as those see it who serve it.
#[derive(Drop)]
pub struct Guest {
    /// Its number on its port.
    pub id: u64,
    /// What the threads round the port share.
    pub gate: Arc<Gate, Global>,
    /// What all share.
    pub server: Arc<Server, Global>,
    /// What it has unfinished.
    pub gauge: Arc<Gauge, Global>,
    /// Its socket.
    pub socket: Socket,
}

impl Guest {
    /// What is read of it, and what is written to it.
    ///
    /// # Errors
    ///
    /// If something has too many owners.
    pub fn halves<R>(
        &self,
        rt: R,
        alloc: Global,
    ) -> Result<(Counted<Reader<R>>, Counted<Socket>), AllocError>
    where
        R: Wait + Clock + Drop,
    {
        let (Ok(gauge), Ok(gate), Ok(socket), Ok(writer)) = (
            Arc::try_clone(&self.gauge),
            Arc::try_clone(&self.gate),
            self.socket.try_clone(),
            self.socket.try_clone(),
        ) else {
            return Err(AllocError);
        };
        let reader = Reader::new(rt, alloc, Watched { gauge, gate }, socket);
        Ok((Counted::new(reader), Counted::new(writer)))
    }

    /// Hands were shaken with its peer, each of whose messages may have so many octets.
    pub fn open<R: Wait>(&self, rt: &R, most: usize) {
        self.gauge.open(rt, most);
        self.gate.stand(rt, self.id, Standing::Served);
    }

    /// Closes the connection. It says that nothing more is written, and drops what the peer sends until that closes its
    /// side, too, for a moment: the system would take back what was written, if octets of the peer were left unread.
    pub fn close<R: Wait + Clock>(&self, rt: &R) {
        self.peer_left(rt);
        self.socket.end_writes();
        let began = self.server.millis(rt);
        for _ in 0..CLOSE_READS {
            let left = grace_left(began, CLOSE_MILLIS, self.server.millis(rt));
            if !self.socket.drops_some(left) {
                return;
            }
        }
    }

    /// Its peer has closed its side, or isn't heard any more.
    pub fn peer_left<R: Wait>(&self, rt: &R) {
        self.gate.stand(rt, self.id, Standing::Left);
    }
}
