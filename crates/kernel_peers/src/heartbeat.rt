//! Connections of the heartbeat.

use kernel_limits::limits::{HEARTBEAT_OCTETS, READS};
use kernel_sockets::{Gauge, Guest, Reader, Socket, hear_out, pong_to, write_whole};
use std::alloc::{AllocError, Global};
use std::sync::{Arc, Wait};
use std::time::Clock;
use zmtp_connection::{Intake, OpenPeer, shake};
use zmtp_wire::{Counted, SocketType, Traffic, write_all};

/// Where a peer's messages go, which are written back. A PING is answered by its PONG, other commands are dropped.
#[derive(Drop)]
struct Echo<R: Wait + Clock + Drop> {
    /// The handle to wait by.
    rt: R,
    /// Where texts take their memory.
    alloc: Global,
    /// What the connection has unfinished.
    gauge: Arc<Gauge, Global>,
    /// What is written to it.
    writer: Counted<Socket>,
}

impl<R: Wait + Clock + Drop> Intake for Echo<R> {
    ghost use Rattle.std.specs.Prelude.{⊤, None, []};

    ghost takes = { λ _ _ _ _. ⊤ };

    ghost told = { λ _. None };

    ghost names = { λ _. [] };

    fn note_unfinished(&self, octets: usize) {
        self.gauge.note(&self.rt, octets);
    }

    fn put(&mut self, traffic: Traffic) -> Result<bool, AllocError> {
        self.gauge.finish(&self.rt);
        let is_written = self.write_back(&traffic);
        drop(traffic);
        Ok(is_written)
    }
}

impl<R: Wait + Clock + Drop> Echo<R> {
    /// Writes a message back, or the PONG of a PING, and answers whether that went well.
    fn write_back(&mut self, traffic: &Traffic) -> bool {
        match traffic {
            Traffic::Message(message) => {
                write_whole(self.alloc, &mut self.writer, message.as_slice()).is_ok()
            }
            Traffic::Command(..) => match pong_to(traffic) {
                Some(pong) => write_all(&mut self.writer, pong.octets()).is_ok(),
                None => true,
            },
        }
    }
}

/// Serves a peer of the heartbeat as a REP: shakes hands with it, writes each message back and answers each PING.
/// Returns when its octets ended or are refused, or a write failed.
pub(crate) fn serve_heartbeat<R>(rt: R, alloc: Global, guest: &Guest)
where
    R: Wait + Clock + Copy + Drop,
{
    let Ok((mut reader, mut writer)) = guest.halves(rt, alloc) else {
        return;
    };
    match shake(alloc, &mut reader, &mut writer, SocketType::Rep, READS) {
        Ok(peer) => {
            guest.open(&rt, HEARTBEAT_OCTETS);
            serve_open(rt, alloc, guest, reader, writer, peer);
        }
        Err(end) => {
            drop(end);
            drop(reader);
            drop(writer);
        }
    }
}

/// Serves a peer of the heartbeat with whom hands were shaken.
fn serve_open<R>(
    rt: R,
    alloc: Global,
    guest: &Guest,
    mut reader: Counted<Reader<R>>,
    writer: Counted<Socket>,
    peer: OpenPeer,
)
where
    R: Wait + Clock + Copy + Drop,
{
    let Ok(gauge) = Arc::try_clone(&guest.gauge) else {
        drop(reader);
        drop(writer);
        drop(peer);
        return;
    };
    let mut echo = Echo {
        rt,
        alloc,
        gauge,
        writer,
    };
    hear_out(alloc, &mut reader, peer, &mut echo);
    drop(echo);
    drop(reader);
}
