//! The worker of subscriptions.

ghost use Rattle.std.specs.Prelude.{◌≡◌, ◌∷◌, ◌++◌, [], All, IfSome, Some, filter};
ghost use Rattle.kernel_workers.specs.Ending.{EndsSilent, IsNoMessage, is_passed_on};
ghost use Rattle.kernel_workers.specs.Starting.{subscribing, subscribing_by};

use crate::promises::ClosesSilent;
use crate::waking::Waking;
use iopub_event::Event;
use iopub_queue::{Closed, Publish};
use kernel_jobs::Arrivals;
use std::snapshot::Snapshot;
use std::sync::Wait;
use std::thread;
use std::thread::{PromisedHandle, Threads};

/// The worker of subscriptions: what it owns and hears.
#[derive(Drop)]
pub struct SubscriptionsWorker<W, R> {
    /// What it publishes by.
    pub sink: Waking<Event<W>, R>,
    /// Its inbox.
    pub inbox: Arrivals<Event<W>>,
}

/// What the thread of that worker leaves: the closing token of its publisher, and its inbox, as it was then.
pub type SubscriptionsEnd<W> = (Closed<Event<W>>, Snapshot<Arrivals<Event<W>>>);

impl<W: Drop, R: Wait + Drop> SubscriptionsWorker<W, R> {
    /// Publishes what its subscribers come, ask for and leave by, and drops each message. Once it is told to end, or
    /// nobody is left who could tell it anything, it closes. What comes after that stays in its inbox.
    pub fn run(self, rt: R) -> (Closed<Event<W>>, Arrivals<Event<W>>)
        requires { self.sink.published ≡ [] }
        ensures { EndsSilent (subscribing self) result.0 result.1 }
    {
        let SubscriptionsWorker {
            mut sink,
            mut inbox,
        } = self;
        for _ in rt.forever() {
            match inbox.next(&rt) {
                Some(event) => pass_on(&mut sink, event),
                None => return (sink.close(), inbox),
            }
        }
        unreachable!()
    }

    /// The same, and drops the inbox after the close: so others see that it has closed.
    fn run_and_drop(self, rt: R) -> SubscriptionsEnd<W>
        requires { self.sink.published ≡ [] }
        ensures { EndsSilent (subscribing self) result.0 result.1.value }
    {
        let (closed, inbox) = self.run(rt);
        let seen = Snapshot::of(&inbox);
        drop(inbox);
        (closed, seen)
    }
}

impl<W, R> SubscriptionsWorker<W, R>
where
    W: Drop + Send + 'static,
    R: Threads + Wait + Copy + Send + Sync + Drop + 'static,
{
    /// Runs it in a thread of its own. None if no thread can be made; then the worker is dropped.
    pub fn spawn(self, rt: R) -> Option<PromisedHandle<SubscriptionsEnd<W>, ClosesSilent<W, R>>>
        requires { self.sink.published ≡ [] }
        ensures { IfSome result (λ handle. subscribing_by handle.promise ≡ subscribing self) }
    {
        let promise = ClosesSilent {
            sink: Snapshot::of(&self.sink),
            inbox: Snapshot::of(&self.inbox),
        };
        match thread::spawn_with(&rt, promise, move || self.run_and_drop(rt)) {
            Ok(handle) => Some(handle),
            Err(refused) => {
                drop(refused);
                None
            }
        }
    }
}

/// Publishes an event, and drops each message.
fn pass_on<W: Drop, R: Wait>(sink: &mut Waking<Event<W>, R>, event: Event<W>)
    ensures queue { sink.new.queue ≡ sink.old.queue }
    ensures number { sink.new.number ≡ sink.old.number }
    ensures passes { sink.new.published ≡ sink.old.published ++ filter is_passed_on (Some event ∷ []) }
    ensures silent { All IsNoMessage sink.old.published → All IsNoMessage sink.new.published }
{
    match event {
        Event::Message(frames) => drop(frames),
        event => drop(sink.publish(event)),
    }
}
