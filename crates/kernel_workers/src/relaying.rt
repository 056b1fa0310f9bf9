//! The relay's worker.

ghost use Rattle.std.specs.Prelude.{◌≡◌, IfOk, IfSome};
ghost use Rattle.iopub_event.specs.declared.event.Event.TheVariants.{Detach};
ghost use Rattle.iopub_relay.specs.Rows.{subscriber_at};
ghost use Rattle.iopub_relay.specs.Table.{IsStarved};

use crate::promises::ServesOn;
use crossbeam_channel::Sender;
use crossbeam_utils::Backoff;
use crossbeam_utils::sync::{Parker, Unparker};
use iopub_event::Event;
use iopub_relay::{Buffered, Pumped, Relay, Rest};
use kernel_jobs::{Note, tell};
use std::alloc::{AllocError, Global};
use std::snapshot::Snapshot;
use std::sync::atomic::{AtomicBool, Ordering};
use std::sync::{Arc, Wait};
use std::thread;
use std::thread::{PromisedHandle, Threads};
use std::time::{Clock, Duration};
use zmtp_wire::Outlet;

/// How many entries are taken, at most, before what writers keep is passed on.
const ENTRIES: u64 = 64;

/// How often nothing is found, one time after the other, before what writers keep is passed on: who
/// publishes much at once goes on in less time.
const PATIENCE: u64 = 8;

/// For how many milliseconds the relay's worker sleeps, at most, while a subscriber has no room for
/// what is kept for it.
const LONGEST_NAP: u64 = 50;

/// The relay's worker: its relay, and what it hears, which is whether it is to end.
#[derive(Drop)]
pub struct RelayWorker<W: Outlet, R> {
    /// What serves the subscribers.
    relay: Relay<W, R>,
    /// The inbox of subscriptions, by which a subscriber leaves for whose topic there was no memory.
    subscriptions: Sender<Note<Event<W>>>,
    /// Whether it is to end.
    ending: Arc<AtomicBool, Global>,
    /// What it sleeps on.
    parker: Parker,
}

/// By which the relay's worker is told to end.
#[derive(Drop)]
pub struct RelayEnd {
    /// Whether it is to end.
    ending: Arc<AtomicBool, Global>,
    /// Wakes it.
    relay: Unparker,
}

/// What a relay's worker hears, and by which it is told to end.
///
/// # Errors
///
/// If an allocation is refused.
fn hearing(alloc: Global) -> Result<(Parker, RelayEnd), AllocError> {
    let parker = Parker::new(alloc)?;
    let Ok(relay) = parker.unparker().clone() else {
        drop(parker);
        return Err(AllocError);
    };
    match Arc::new(alloc, AtomicBool::new(false)) {
        Ok(ending) => Ok((parker, RelayEnd { ending, relay })),
        Err(_) => {
            drop(parker);
            drop(relay);
            Err(AllocError)
        }
    }
}

impl<W: Outlet + Drop, R: Drop> RelayWorker<W, R> {
    /// The worker of a relay, which isn't to end yet, and by which it is told to. If there is no memory for a topic of a
    /// subscriber, it has that one leave, by this inbox of subscriptions.
    ///
    /// # Errors
    ///
    /// If an allocation is refused.
    pub fn new(
        alloc: Global,
        relay: Relay<W, R>,
        subscriptions: Sender<Note<Event<W>>>,
    ) -> Result<(RelayWorker<W, R>, RelayEnd), AllocError>
        ensures { IfOk result (λ made. made.0.relay ≡ relay) }
    {
        let Ok((parker, end)) = hearing(alloc) else {
            drop(relay);
            drop(subscriptions);
            return Err(AllocError);
        };
        match Arc::try_clone(&end.ending) {
            Ok(ending) => Ok((
                RelayWorker {
                    relay,
                    subscriptions,
                    ending,
                    parker,
                },
                end,
            )),
            Err(AllocError) => {
                drop(relay);
                drop(subscriptions);
                drop(parker);
                drop(end);
                Err(AllocError)
            }
        }
    }

    /// What wakes it.
    ///
    /// # Errors
    ///
    /// If it has too many owners.
    pub fn unparker(&self) -> Result<Unparker, AllocError> {
        self.parker.unparker().clone()
    }
}

impl RelayEnd {
    /// Tells the relay's worker to end. What it hasn't taken then stays in the queue.
    pub fn end(self) {
        self.ending.store(true, Ordering::SeqCst);
        self.relay.unpark();
    }
}

impl<W: Buffered + Drop, R: Wait + Clock + Drop> RelayWorker<W, R> {
    /// Takes what is published and serves it, until the closes of all publishers were taken, or it is told to end. If it
    /// finds nothing it backs off, and once that is completed it sleeps until a publisher wakes it. Each wakes it after
    /// what it published, and one that did so before it slept keeps it awake.
    pub fn run(self, rt: R) -> Relay<W, R>
        ensures queue { result.taker.queue ≡ self.relay.taker.queue }
        ensures count { result.taker.count ≡ self.relay.taker.count }
    {
        let RelayWorker {
            mut relay,
            subscriptions,
            ending,
            parker,
        } = self;
        pump_all(&rt, &mut relay, &subscriptions, &ending, &parker);
        drop(subscriptions);
        drop(ending);
        drop(parker);
        relay
    }
}

impl<W, R> RelayWorker<W, R>
where
    W: Buffered + Drop + Send + 'static,
    R: Threads + Wait + Clock + Copy + Send + Sync + Drop + 'static,
{
    /// Runs it in a thread of its own. None if no thread can be made; then the worker is dropped.
    pub fn spawn(self, rt: R) -> Option<PromisedHandle<Relay<W, R>, ServesOn<W, R>>>
        ensures { IfSome result (λ handle. handle.promise.relay.value ≡ self.relay) }
    {
        let promise = ServesOn {
            relay: Snapshot::of(&self.relay),
        };
        match thread::spawn_with(&rt, promise, move || self.run(rt)) {
            Ok(handle) => Some(handle),
            Err(refused) => {
                drop(refused);
                None
            }
        }
    }
}

/// What the relay's worker found to do.
#[derive(Clone, Copy, Debug, PartialEq, Eq)]
enum Found {
    /// An entry, which was served.
    Entry,
    /// Nothing.
    Nothing,
    /// Nothing more: all is complete.
    Complete,
    /// A subscriber for which so much is kept that no entry is taken meanwhile.
    Crowd,
}

/// How the relay's worker goes about its work.
#[derive(Drop)]
struct Rhythm {
    /// How it backs off while it finds nothing.
    backoff: Backoff,
    /// How many entries it took since it passed on what writers keep.
    taken: u64,
    /// How often it found nothing, one time after the other.
    idle: u64,
    /// For how many milliseconds it sleeps next, while a subscriber has no room.
    nap: u64,
}

impl Rhythm {
    /// The rhythm of a worker that begins.
    fn new() -> Rhythm {
        Rhythm {
            backoff: Backoff::new(),
            taken: 0,
            idle: 0,
            nap: 1,
        }
    }

    /// Counts what was found, and answers whether what writers keep is to be passed on.
    fn is_time(&mut self, found: Found) -> bool {
        let is_time = match found {
            Found::Entry => self.takes(),
            Found::Nothing => self.finds_nothing(),
            Found::Crowd | Found::Complete => true,
        };
        if is_time {
            self.taken = 0;
        }
        is_time
    }

    /// Counts an entry, and answers whether so many were taken that it is time.
    fn takes(&mut self) -> bool {
        self.backoff.reset();
        self.idle = 0;
        self.nap = 1;
        self.taken = self.taken.saturating_add(1);
        self.taken >= ENTRIES
    }

    /// Counts that nothing was found, and answers whether it is time: once that was so a few times, and
    /// before it sleeps.
    fn finds_nothing(&mut self) -> bool {
        self.idle = self.idle.saturating_add(1);
        self.idle == PATIENCE || self.backoff.is_completed()
    }

    /// Backs off, or sleeps if that is completed: until a publisher wakes the relay's worker, or, if
    /// something is kept, for a moment at most.
    fn rest<R: Wait + Clock>(&mut self, rt: &R, parker: &Parker, keeps: Rest) {
        if !self.backoff.is_completed() {
            self.backoff.snooze();
        } else if keeps == Rest::Nothing {
            parker.park(rt);
            self.nap = 1;
        } else {
            self.sleep(rt, parker, keeps);
        }
    }

    /// Sleeps for a moment, or until a publisher wakes the relay's worker. The moment is longer each
    /// time, as long as nothing moves.
    fn sleep<R: Wait + Clock>(&mut self, rt: &R, parker: &Parker, keeps: Rest) {
        if keeps == Rest::Less {
            self.nap = 1;
        }
        parker.park_timeout(rt, Duration::from_millis(self.nap));
        self.nap = self.nap.saturating_mul(2).min(LONGEST_NAP);
    }
}

/// Takes what is published and serves it, until the relay's worker is to end, or all is complete.
/// What subscribers' writers keep is passed on once nothing more is found, and at least after so many
/// entries. No entry is taken while so much is kept for a subscriber that it is waited for.
fn pump_all<W: Buffered + Drop, R: Wait + Clock>(
    rt: &R,
    relay: &mut Relay<W, R>,
    subscriptions: &Sender<Note<Event<W>>>,
    ending: &AtomicBool,
    parker: &Parker,
)
    ensures queue { relay.new.taker.queue ≡ relay.old.taker.queue }
    ensures count { relay.new.taker.count ≡ relay.old.taker.count }
{
    let mut rhythm = Rhythm::new();
    for _ in rt.forever() {
        if ending.load(Ordering::SeqCst) {
            break;
        }
        let found = pump_one(rt, relay, subscriptions);
        go_on(rt, relay, parker, &mut rhythm, found);
        if found == Found::Complete {
            break;
        }
    }
    drop(rhythm);
}

/// Has writers pass on what they keep, if it is time for that, and rests if nothing is to be done.
fn go_on<W: Buffered + Drop, R: Wait + Clock>(
    rt: &R,
    relay: &mut Relay<W, R>,
    parker: &Parker,
    rhythm: &mut Rhythm,
    found: Found,
)
    ensures queue { relay.new.taker.queue ≡ relay.old.taker.queue }
    ensures count { relay.new.taker.count ≡ relay.old.taker.count }
{
    if !rhythm.is_time(found) {
        if found == Found::Nothing {
            rhythm.rest(rt, parker, Rest::Nothing);
        }
        return;
    }
    let keeps = relay.flush();
    match found {
        Found::Entry | Found::Complete => {}
        Found::Nothing => rhythm.rest(rt, parker, keeps),
        Found::Crowd => {
            if relay.is_crowded() {
                rhythm.sleep(rt, parker, keeps);
            }
        }
    }
}

/// Takes an entry and serves it, if there is one and nobody is waited for.
fn pump_one<W: Buffered + Drop, R: Wait>(
    rt: &R,
    relay: &mut Relay<W, R>,
    subscriptions: &Sender<Note<Event<W>>>,
) -> Found
    ensures queue { relay.new.taker.queue ≡ relay.old.taker.queue }
    ensures count { relay.new.taker.count ≡ relay.old.taker.count }
{
    if relay.is_crowded() {
        return Found::Crowd;
    }
    match relay.pump() {
        Pumped::Did | Pumped::Closed(_) | Pumped::NoRoom(_) => Found::Entry,
        Pumped::NoTopic(id) => {
            tell(rt, subscriptions, Note::Item(leaving_of(relay, id)));
            Found::Entry
        }
        Pumped::Complete => Found::Complete,
        Pumped::Empty => Found::Nothing,
    }
}

/// That a subscriber of a relay leaves, for whose topic there was no memory.
fn leaving_of<W: Outlet, R>(relay: &Relay<W, R>, id: u64) -> Event<W>
    requires { IsStarved (subscriber_at id relay.now.rows) }
    ensures { result ≡ Detach id }
{
    let _ = relay;
    Event::Detach(id)
}
