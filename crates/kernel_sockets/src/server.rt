//! What all threads of a server share: its time, whether the kernel is to end, what its peers have unfinished, and what
//! subscribers have beyond what each may have.

use crate::socket::Socket;
use kernel_limits::limits::{FREED_MILLIS, PACE_MILLIS, WRITERS};
use kernel_limits::{Part, Waste, grace_left, is_overfull, may_hold, share_excess};
use std::alloc::Global;
use std::sync::atomic::{AtomicBool, AtomicU64, AtomicUsize, Ordering};
use std::sync::{Arc, Condvar, Mutex, Wait};
use std::time::{Clock, Duration, Instant};

/// For how many milliseconds it is waited at a time until closed connections let go of what they hold.
const LOOK: u64 = 10;

/// A connection that holds much of an unfinished message.
#[derive(Drop)]
struct Holder {
    /// Its number.
    number: u64,
    /// Its socket.
    socket: Socket,
}

/// The unfinished messages that are more than small.
#[derive(Drop)]
struct Unfinished {
    /// What each connection holds: first those that were closed, until their threads let go of it, and then the others,
    /// the one that has held its part longest first.
    parts: Vec<Part>,
    /// How many were closed.
    closed: usize,
    /// The connections.
    holders: Vec<Holder>,
}

impl Unfinished {
    /// The parts of connections that were closed, and of those that weren't.
    fn split(&self) -> (&[Part], &[Part]) {
        self.parts
            .as_slice()
            .split_at(self.closed.min(self.parts.len()))
    }

    /// Whether a connection has a part, which is of so many octets then, or of no fewer than before if it was closed.
    fn has_set(&mut self, part: Part) -> bool {
        let (closed, _) = self.split();
        let least = match closed.iter().find(|it| it.number == part.number) {
            Some(closed) => closed.octets,
            None => 0,
        };
        let Some(counted) = self.parts.iter_mut().find(|it| it.number == part.number) else {
            return false;
        };
        counted.octets = part.octets.max(least);
        true
    }

    /// Takes a connection's part out.
    fn free(&mut self, number: u64) {
        let (closed, _) = self.split();
        if closed.iter().any(|part| part.number == number) {
            self.closed = self.closed.saturating_sub(1);
        }
        self.parts.retain(|part| part.number != number);
        self.holders.retain(|holder| holder.number != number);
    }

    /// Closes the connection that has held its part longest. Its part counts until its thread lets go of it.
    fn close_oldest(&mut self) {
        let (_, open) = self.split();
        let Some(oldest) = open.first() else {
            return;
        };
        let number = oldest.number;
        if let Some(holder) = self.holders.iter().find(|it| it.number == number) {
            holder.socket.shut();
        }
        self.closed = self.closed.saturating_add(1);
    }

    /// Closes connections until the parts of the others aren't too much.
    fn close_some(&mut self) {
        for _ in 0..self.parts.len() {
            let (_, open) = self.split();
            if !is_overfull(open) {
                return;
            }
            self.close_oldest();
        }
    }

    /// Whether all parts are too much, since closed connections still hold theirs.
    fn is_waiting(&self) -> bool {
        is_overfull(self.parts.as_slice())
    }
}

/// What all threads of a server share.
#[derive(Drop)]
pub struct Server {
    /// When the server began, if the clock could be read.
    began: Option<Instant>,
    /// Whether the kernel is to end.
    is_ending: Arc<AtomicBool, Global>,
    /// When that was seen first, in milliseconds and one more; 0 if it wasn't.
    ending: AtomicU64,
    /// How many numbers were given to connections.
    numbers: AtomicU64,
    /// Octets that are kept for subscribers, beyond a small part of each.
    beyond: AtomicUsize,
    /// How many writers of subscribers there are.
    writers: AtomicUsize,
    /// Octets that the topics of subscribers take, beyond a small part of each.
    topics: Mutex<usize>,
    /// For how many milliseconds the relay waited for subscribers in vain. Its thread alone has this
    /// and the next.
    wasted: AtomicU64,
    /// When that ended last.
    wasted_last: AtomicU64,
    /// Held by the subscriber that tells the relay something, while it looks how much of others waits.
    turn: Mutex<()>,
    /// What is unfinished.
    unfinished: Mutex<Unfinished>,
    /// Tells that a connection let go of what it held.
    freed: Condvar,
}

impl Server {
    /// A server that begins now, of a kernel with a flag that is raised once it is to end.
    pub fn new<R: Clock>(rt: &R, alloc: Global, is_ending: Arc<AtomicBool, Global>) -> Server {
        let waste = Waste::new();
        Server {
            began: Instant::now(rt).ok(),
            is_ending,
            ending: AtomicU64::new(0),
            numbers: AtomicU64::new(0),
            beyond: AtomicUsize::new(0),
            writers: AtomicUsize::new(0),
            topics: Mutex::new(0),
            wasted: AtomicU64::new(waste.millis),
            wasted_last: AtomicU64::new(waste.last),
            turn: Mutex::new(()),
            unfinished: Mutex::new(Unfinished {
                parts: Vec::new(alloc),
                closed: 0,
                holders: Vec::new(alloc),
            }),
            freed: Condvar::new(),
        }
    }

    /// How many milliseconds have passed since the server began: none as long as the clock can't be read.
    pub fn millis<R: Clock>(&self, rt: &R) -> u64 {
        let Some(began) = self.began else {
            return 0;
        };
        match Instant::now(rt) {
            Ok(now) => {
                let passed = now.saturating_duration_since(began);
                u64::try_from(passed.as_millis()).unwrap_or(u64::MAX)
            }
            Err(error) => {
                drop(error);
                0
            }
        }
    }

    /// Since when the kernel is to end, as far as it was looked at. None as long as it isn't to.
    pub(crate) fn ending_since<R: Clock>(&self, rt: &R) -> Option<u64> {
        if !self.is_ending.load(Ordering::SeqCst) {
            return None;
        }
        let now = self.millis(rt);
        let seen = now.saturating_add(1);
        match self
            .ending
            .compare_exchange(0, seen, Ordering::SeqCst, Ordering::SeqCst)
        {
            Ok(_) => Some(now),
            Err(before) => Some(before.saturating_sub(1)),
        }
    }

    /// A number for one more connection.
    pub(crate) fn next_number(&self) -> u64 {
        self.numbers.fetch_add(1, Ordering::SeqCst)
    }

    /// How many octets are kept for subscribers, beyond a small part of each.
    pub(crate) fn beyond(&self) -> usize {
        self.beyond.load(Ordering::SeqCst)
    }

    /// Counts that so much is kept for a subscriber now, which was so much before.
    pub(crate) fn keeps(&self, before: usize, now: usize) {
        let (was, is) = (share_excess(before), share_excess(now));
        if is >= was {
            self.beyond.fetch_add(is - was, Ordering::SeqCst);
        } else {
            self.beyond.fetch_sub(was - is, Ordering::SeqCst);
        }
    }

    /// Counts a writer of a subscriber, which has a descriptor of its own.
    pub(crate) fn opens_writer(&self) {
        self.writers.fetch_add(1, Ordering::SeqCst);
    }

    /// Counts that a writer of a subscriber is there no longer.
    pub(crate) fn closes_writer(&self) {
        self.writers.fetch_sub(1, Ordering::SeqCst);
    }

    /// Whether there may be one more writer: those of subscribers that left count until the relay has
    /// let go of them.
    pub fn has_room(&self) -> bool {
        self.writers.load(Ordering::SeqCst) < WRITERS
    }

    /// What a subscriber holds while it looks how much of others waits for the relay, and tells the relay something.
    pub fn turn(&self) -> &Mutex<()> {
        &self.turn
    }

    /// Counts topics that take so many octets more, and answers whether there is room for them. They aren't counted
    /// otherwise.
    pub fn hold_topics<R: Wait>(&self, rt: &R, more: usize) -> bool {
        let mut all = self.topics.lock(rt);
        let is_room = may_hold(*all, more);
        if is_room {
            *all = all.saturating_add(more);
        }
        is_room
    }

    /// Counts topics that take so many octets less.
    pub fn free_topics<R: Wait>(&self, rt: &R, less: usize) {
        let mut all = self.topics.lock(rt);
        *all = all.saturating_sub(less);
    }

    /// In how many milliseconds a subscriber has to take the octets of the least pace that didn't keep it before.
    pub(crate) fn grace(&self, now: u64) -> u64 {
        self.waste().grace(now)
    }

    /// How long the relay waited for subscribers in vain.
    fn waste(&self) -> Waste {
        Waste {
            millis: self.wasted.load(Ordering::SeqCst),
            last: self.wasted_last.load(Ordering::SeqCst),
        }
    }

    /// Counts that the relay waited from then on for a subscriber that is given up now: no longer than
    /// a subscriber may take for the least pace, after which nobody waits for it.
    pub(crate) fn wastes<R: Clock>(&self, rt: &R, since: u64) {
        let now = self.millis(rt);
        let waited = now.saturating_sub(since).min(PACE_MILLIS);
        let mut waste = self.waste();
        waste.add(waited, now);
        self.wasted.store(waste.millis, Ordering::SeqCst);
        self.wasted_last.store(waste.last, Ordering::SeqCst);
    }

    /// Counts what a connection holds of an unfinished message, beyond what every connection may hold. If all are too
    /// much then, the connection that has held its part longest is closed, and so on. Who holds more waits until those
    /// have let go of so much that there is room. If that takes too long, or there is no memory to count it, this
    /// connection is closed. Answers whether it was waited.
    pub(crate) fn hold<R: Wait + Clock>(&self, rt: &R, part: Part, socket: &Socket) -> bool {
        let mut unfinished = self.unfinished.lock(rt);
        if !is_counted(&mut unfinished, part, socket) {
            socket.shut();
        }
        unfinished.close_some();
        drop(unfinished);
        let began = self.millis(rt);
        let mut has_waited = false;
        for _ in rt.forever() {
            if socket.is_shut() || !self.waits(rt) {
                return has_waited;
            }
            has_waited = true;
            if grace_left(began, FREED_MILLIS, self.millis(rt)) == 0 {
                socket.shut();
                return true;
            }
        }
        unreachable!()
    }

    /// Whether closed connections still held too much, a moment ago.
    fn waits<R: Wait + Clock>(&self, rt: &R) -> bool {
        let unfinished = self.unfinished.lock(rt);
        let is_waiting = unfinished.is_waiting();
        if is_waiting {
            drop(
                self.freed
                    .wait_timeout(rt, unfinished, Duration::from_millis(LOOK)),
            );
        } else {
            drop(unfinished);
        }
        is_waiting
    }

    /// A connection has nothing unfinished any more, beyond what every connection may have.
    pub(crate) fn free<R: Wait>(&self, rt: &R, number: u64) {
        self.unfinished.lock(rt).free(number);
        self.freed.notify_all();
    }
}

/// Counts a part, and answers whether there was memory for that.
fn is_counted(unfinished: &mut Unfinished, part: Part, socket: &Socket) -> bool {
    if unfinished.has_set(part) {
        return true;
    }
    let Ok(kept) = socket.try_clone() else {
        return false;
    };
    if unfinished.parts.reserve(1).is_err() || unfinished.holders.reserve(1).is_err() {
        drop(kept);
        return false;
    }
    unfinished.parts.push_reserved(part);
    unfinished.holders.push_reserved(Holder {
        number: part.number,
        socket: kept,
    });
    true
}
