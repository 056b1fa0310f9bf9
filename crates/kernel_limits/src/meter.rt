//! What a connection may still read of a handshake or a message, and until when.

ghost use Rattle.std.specs.Prelude.{◌≡◌, ◌-◌};
ghost use Rattle.kernel_limits.specs.Limits.{excess_of, finished, left_for_unfinished, noted, opened_meter, reading};
ghost use Rattle.kernel_limits.specs.Limits.{resumed, shaking};

use crate::limits::{HANDSHAKE_OCTETS, SMALL_OCTETS, UNFINISHED_MILLIS};

/// What a connection has read of a handshake, or of messages that aren't whole yet or weren't looked at.
#[derive(Clone, Copy, Debug, PartialEq, Eq)]
pub struct Meter {
    /// How many octets it may have at most.
    pub most: usize,
    /// How many octets were read of it.
    pub held: usize,
    /// How many of these came after the last whole message.
    pub rest: usize,
    /// When it began, in milliseconds, if something is unfinished.
    pub since: Option<u64>,
}

impl Meter {
    /// A connection that begins to shake hands.
    pub fn shake(now: u64) -> Meter
        ensures { result ≡ shaking now }
    {
        Meter {
            most: HANDSHAKE_OCTETS,
            held: 0,
            rest: 0,
            since: Some(now),
        }
    }

    /// Hands were shaken: from now on each message may have so many octets.
    pub fn open(&mut self, most: usize)
        ensures { self.new ≡ opened_meter most }
    {
        *self = Meter {
            most,
            held: 0,
            rest: 0,
            since: None,
        };
    }

    /// How many octets may still be read.
    pub fn room(&self) -> usize
        ensures { result ≡ self.now.most - self.now.held }
    {
        self.most.saturating_sub(self.held)
    }

    /// For how many milliseconds it may be read on: any number if nothing is unfinished.
    pub fn left(&self, now: u64) -> Option<u64>
        ensures { result ≡ left_for_unfinished self.now.since now }
    {
        match self.since {
            Some(since) => Some(since.saturating_add(UNFINISHED_MILLIS).saturating_sub(now)),
            None => None,
        }
    }

    /// Counts octets that were read.
    pub fn read(&mut self, count: usize, now: u64)
        ensures { self.new ≡ reading self.old count now }
    {
        self.held = self.held.saturating_add(count);
        self.since = Some(self.since.unwrap_or(now));
    }

    /// So many octets came after the last whole message. Before it is looked at, it counts, too.
    pub fn note(&mut self, rest: usize, now: u64)
        ensures { self.new ≡ noted self.old rest now }
    {
        self.held = self.held.max(rest);
        self.rest = rest;
        if rest > 0 {
            self.since = self.since.or(Some(now));
        }
    }

    /// Nothing was read for a while, and not for want of octets: what is unfinished begins anew.
    pub fn resume(&mut self, now: u64)
        ensures { self.new ≡ resumed self.old now }
    {
        if self.since.is_some() {
            self.since = Some(now);
        }
    }

    /// The last whole message was looked at. What came after it is unfinished from now on.
    pub fn finish(&mut self, now: u64)
        ensures { self.new ≡ finished self.old now }
    {
        self.held = self.rest;
        self.since = if self.rest > 0 { Some(now) } else { None };
    }

    /// How many octets are unfinished beyond what every connection may hold.
    pub fn excess(&self) -> usize
        ensures { result ≡ excess_of self.now }
    {
        self.held.saturating_sub(SMALL_OCTETS)
    }
}
