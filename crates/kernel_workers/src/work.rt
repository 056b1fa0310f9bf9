//! What a worker of shell or control has at hand.

use crate::outcomes::Outcomes;
use crate::waking::Waking;
use interp_core::Interpreter;
use iopub_event::Event;
use jmsg_envelope::Stamp;
use kernel_engine::Engine;
use kernel_jobs::{Arrivals, Job};
use std::sync::Wait;

/// What a worker of shell or control has at hand, and leaves.
#[derive(Drop)]
pub struct Work<I: Interpreter, S: Stamp, W, R: Wait> {
    /// What handles its requests. Its publisher is open.
    pub engine: Engine<I, Waking<Event<W>, R>, S, W>,
    /// Its inbox. Once that is dropped, who puts jobs into it sees that nobody does them.
    pub inbox: Arrivals<Job>,
    /// What became of its jobs.
    pub outcomes: Outcomes,
}
