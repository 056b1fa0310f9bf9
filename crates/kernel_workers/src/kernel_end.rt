//! How a kernel ended, and what its workers did.

use crate::outcomes::Outcomes;
use iopub_event::Event;
use iopub_relay::Relay;
use kernel_jobs::{Arrivals, Job};
use std::snapshot::Snapshot;
use zmtp_wire::Outlet;

/// How a kernel ended.
#[derive(Drop)]
pub struct KernelEnd<W: Outlet, R> {
    /// Whether all that was published was taken.
    pub complete: bool,
    /// Whether the kernel is to begin anew.
    pub restart: bool,
    /// The subscribers that were there, by rising ids: each with its writer, and whether it has failed.
    pub subscribers: Vec<(u64, W, bool)>,
    /// How often there was no memory for a subscriber that came; at the greatest number it stays.
    pub no_room: u64,
    /// What served the subscribers, as it was then: what it took.
    pub relay: Snapshot<Relay<W, R>>,
    /// The inbox of subscriptions, as it was then: which events came out of it.
    pub subscriptions_in: Snapshot<Arrivals<Event<W>>>,
    /// What the workers of shell and of control did.
    pub work: KernelWork,
}

/// What the workers of shell and of control did.
#[derive(Drop)]
pub struct KernelWork {
    /// Whether it was published that the kernel starts.
    pub started: bool,
    /// What shell's did.
    pub shell: WorkDone,
    /// What control's did.
    pub control: WorkDone,
}

/// What a worker of shell or control did.
#[derive(Drop)]
pub struct WorkDone {
    /// The inbox, as it was then: which jobs came out of it.
    pub inbox: Snapshot<Arrivals<Job>>,
    /// What became of these.
    pub outcomes: Outcomes,
}
