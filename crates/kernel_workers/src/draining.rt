//! A relay that serves in a thread of its own, until it is told that nothing more is published.

ghost use Rattle.std.specs.Prelude.{◌≡◌, IfErr, IfOk};
ghost use Rattle.iopub_relay.specs.Relay.{TakesMore};
ghost use Rattle.kernel_workers.specs.Shutdown.{DrainsFrom, IsBack};

use crossbeam_utils::Backoff;
use iopub_relay::{Drain, Relay};
use std::alloc::{AllocError, Global};
use std::snapshot::Snapshot;
use std::sync::atomic::{AtomicBool, Ordering};
use std::sync::{Arc, Wait};
use std::thread;
use std::thread::{Promise, PromisedHandle, Threads};
use zmtp_wire::Outlet;

/// How many entries are taken at once.
const ENTRIES: u64 = 64;

/// What the thread of a relay is told.
#[derive(Drop)]
struct Marks {
    /// Whether nothing more is published.
    is_over: AtomicBool,
    /// Whether it is to give the relay back, and do nothing.
    is_back: AtomicBool,
}

/// What became of a relay.
#[derive(Drop)]
enum Drained<W: Outlet, R> {
    /// It did nothing.
    Back(Relay<W, R>),
    /// It served what was published.
    Served(Relay<W, R>),
}

/// The promise of a relay's thread: the relay is as it was, or took more.
#[derive(Drop)]
pub(crate) struct DrainsOn<W: Outlet, R> {
    /// The relay, as it was given.
    relay: Snapshot<Relay<W, R>>,
}

impl<W: Outlet, R> Promise<Drained<W, R>> for DrainsOn<W, R> {
    ghost use Rattle.kernel_workers.specs.Shutdown.{DrainsFrom};

    ghost kept_by = { λ promise drained. DrainsFrom promise.relay.value drained };
}

/// A relay in a thread of its own.
pub(crate) struct Draining<W: Outlet, R> {
    /// The thread.
    thread: PromisedHandle<Drained<W, R>, DrainsOn<W, R>>,
    /// What it is told.
    marks: Arc<Marks, Global>,
}

/// Has a relay serve what is published in a thread of its own.
///
/// # Errors
///
/// The relay, if no thread can be made, or memory is refused. Then nothing was done.
pub(crate) fn begin_draining<W, R>(
    rt: R,
    alloc: Global,
    relay: Relay<W, R>,
) -> Result<Draining<W, R>, Relay<W, R>>
where
    W: Outlet + Drop + Send + 'static,
    R: Threads + Wait + Copy + Send + Sync + Drop + 'static,
    ensures begun { IfOk result (λ draining. draining.thread.promise.relay.value ≡ relay) }
    ensures back { IfErr result (λ back. back ≡ relay) }
{
    let Ok((marks, its)) = twice(alloc) else {
        return Err(relay);
    };
    match begin_serving(rt, relay, marks, its) {
        Ok(draining) => Ok(draining),
        Err(drained) => Err(back_of(&rt, drained)),
    }
}

/// Begins the thread of a relay.
///
/// # Errors
///
/// What became of the relay, if no thread can be made: it was told to give the relay back.
fn begin_serving<W, R>(
    rt: R,
    relay: Relay<W, R>,
    marks: Arc<Marks, Global>,
    its: Arc<Marks, Global>,
) -> Result<Draining<W, R>, Drained<W, R>>
where
    W: Outlet + Drop + Send + 'static,
    R: Threads + Wait + Copy + Send + Sync + Drop + 'static,
    ensures begun { IfOk result (λ draining. draining.thread.promise.relay.value ≡ relay) }
    ensures drained { IfErr result (λ drained. DrainsFrom relay drained) }
{
    let promise = DrainsOn {
        relay: Snapshot::of(&relay),
    };
    match thread::spawn_with(&rt, promise, move || serve(rt, relay, its)) {
        Ok(thread) => Ok(Draining { thread, marks }),
        Err(refused) => {
            marks.is_back.store(true, Ordering::SeqCst);
            drop(marks);
            Err((refused.value)())
        }
    }
}

/// The relay that came back. One that served doesn't come: `serve` looks first whether the relay is to come back.
fn back_of<W, R>(rt: &R, drained: Drained<W, R>) -> Relay<W, R>
where
    W: Outlet + Drop,
    R: Wait + Drop,
    ensures { IsBack drained result }
{
    match drained {
        Drained::Back(relay) => relay,
        Drained::Served(relay) => {
            drop(relay);
            for _ in rt.forever() {}
            unreachable!()
        }
    }
}

/// Marks, for two.
///
/// # Errors
///
/// If memory is refused.
fn twice(alloc: Global) -> Result<(Arc<Marks, Global>, Arc<Marks, Global>), AllocError> {
    let marks = Marks {
        is_over: AtomicBool::new(false),
        is_back: AtomicBool::new(false),
    };
    let Ok(marks) = Arc::new(alloc, marks) else {
        return Err(AllocError);
    };
    match Arc::try_clone(&marks) {
        Ok(other) => Ok((marks, other)),
        Err(AllocError) => {
            drop(marks);
            Err(AllocError)
        }
    }
}

/// Serves what is published until nothing more is.
fn serve<W: Outlet + Drop, R: Wait + Drop>(
    rt: R,
    relay: Relay<W, R>,
    marks: Arc<Marks, Global>,
) -> Drained<W, R>
    ensures { DrainsFrom relay result }
{
    if marks.is_back.load(Ordering::SeqCst) {
        drop(marks);
        return Drained::Back(relay);
    }
    let mut relay = relay;
    drain_on(&rt, &mut relay, &marks);
    drop(marks);
    Drained::Served(relay)
}

/// Takes what is published and serves it, until the closes of all publishers were taken, or nothing is found and nothing
/// more is published.
fn drain_on<W: Outlet + Drop, R: Wait>(rt: &R, relay: &mut Relay<W, R>, marks: &Marks)
    ensures { TakesMore relay.old.taker relay.new.taker }
{
    let backoff = Backoff::new();
    for _ in rt.forever() {
        // It is read before the queue, so that all is found that was published before the mark was set.
        let is_over = marks.is_over.load(Ordering::SeqCst);
        match relay.drain(ENTRIES) {
            Drain::Complete => return,
            Drain::More => backoff.reset(),
            Drain::Empty => {
                if is_over {
                    return;
                }
                backoff.snooze();
            }
        }
    }
    unreachable!()
}

impl<W: Outlet, R: Threads> Draining<W, R> {
    /// Tells the relay's thread that nothing more is published, and gives the relay back.
    pub(crate) fn join(self, rt: &R) -> Relay<W, R>
        ensures { TakesMore self.thread.promise.relay.value.taker result.taker }
    {
        let Draining { thread, marks } = self;
        marks.is_over.store(true, Ordering::SeqCst);
        drop(marks);
        match thread.join(rt) {
            Drained::Back(relay) | Drained::Served(relay) => relay,
        }
    }
}
