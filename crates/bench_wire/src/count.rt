//! How much was fed, and what came of it.

use std::fmt;
use zmtp_wire::Traffic;

/// How much was fed, and how much traffic came of it.
#[derive(Clone, Copy, Debug, PartialEq, Eq)]
pub(crate) struct Count {
    /// The messages and commands.
    pub(crate) traffic: usize,
    /// The octets of the messages' bodies.
    pub(crate) octets: usize,
    /// The octets of the text, heads too.
    pub(crate) text: usize,
}

impl Count {
    /// Nothing yet.
    pub(crate) fn new() -> Count {
        Count {
            traffic: 0,
            octets: 0,
            text: 0,
        }
    }

    /// The same again and again.
    pub(crate) fn times(self, count: usize) -> Count {
        Count {
            traffic: self.traffic.saturating_mul(count),
            octets: self.octets.saturating_mul(count),
            text: self.text.saturating_mul(count),
        }
    }

    /// Adds a piece, and what came of it.
    pub(crate) fn add_piece(&mut self, piece: &[u8], came: &[Traffic]) {
        self.text = self.text.saturating_add(piece.len());
        self.traffic = self.traffic.saturating_add(came.len());
        for traffic in came {
            self.add_bodies(traffic);
        }
    }

    /// Adds the octets of a message's bodies.
    fn add_bodies(&mut self, traffic: &Traffic) {
        if let Traffic::Message(frames) = traffic {
            for body in frames.as_slice() {
                self.octets = self.octets.saturating_add(body.len());
            }
        }
    }
}

impl fmt::Display for Count {
    fn fmt<W: fmt::Write>(&self, f: &mut fmt::Formatter<W>) -> fmt::Result {
        let traffic = self.traffic;
        let octets = self.octets;
        let text = self.text;
        write!(
            f,
            "{traffic} messages, {octets} octets of bodies, {text} octets"
        )
    }
}
