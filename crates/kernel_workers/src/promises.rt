//! The promises of the workers, which hold after a join.

use crate::ended::Ended;
use crate::subscriptions::SubscriptionsEnd;
use crate::waking::Waking;
use interp_core::Interpreter;
use iopub_event::Event;
use iopub_relay::Relay;
use jmsg_envelope::Stamp;
use kernel_engine::{Engine, Side};
use kernel_jobs::{Arrivals, Job};
use std::snapshot::Snapshot;
use std::sync::Wait;
use std::thread::Promise;
use zmtp_wire::Outlet;

/// The promise of a worker of shell or control: it did the jobs of its inbox, and its engine is the one that it was
/// given, whatever was published.
#[derive(Drop)]
pub struct LeavesWork<I: Interpreter, S: Stamp, W, R: Wait> {
    /// Its channel.
    pub side: Side,
    /// Its engine, as it was given.
    pub engine: Snapshot<Engine<I, Waking<Event<W>, R>, S, W>>,
    /// Its inbox, as it was given.
    pub inbox: Snapshot<Arrivals<Job>>,
}

impl<I: Interpreter, S: Stamp, W, R: Wait> Promise<Ended<I, S, W, R>> for LeavesWork<I, S, W, R> {
    ghost use Rattle.kernel_workers.specs.Works.{LeavesAsPromised};

    ghost kept_by = { LeavesAsPromised I.meaning S.stamp };
}

/// The promise of the worker of subscriptions: it leaves the closing token of its publisher, whose list is what it
/// passed on of what came out of its inbox.
#[derive(Drop)]
pub struct ClosesSilent<W, R> {
    /// Its publisher, as it was given.
    pub sink: Snapshot<Waking<Event<W>, R>>,
    /// Its inbox, as it was given.
    pub inbox: Snapshot<Arrivals<Event<W>>>,
}

impl<W, R> Promise<SubscriptionsEnd<W>> for ClosesSilent<W, R> {
    ghost use Rattle.kernel_workers.specs.Ending.{EndsSilent};

    ghost kept_by = { λ promise ended.
        EndsSilent (record { sink = promise.sink.value; inbox = promise.inbox.value }) ended.0 ended.1.value };
}

/// The promise of the relay's worker: its relay takes from the same queue.
#[derive(Drop)]
pub struct ServesOn<W: Outlet, R> {
    /// The relay, as it was given.
    pub relay: Snapshot<Relay<W, R>>,
}

impl<W: Outlet, R> Promise<Relay<W, R>> for ServesOn<W, R> {
    ghost use Rattle.std.specs.Prelude.{◌≡◌};

    ghost kept_by = { λ promise relay. (relay.taker.queue ≡ promise.relay.value.taker.queue)
        × (relay.taker.count ≡ promise.relay.value.taker.count) };
}
