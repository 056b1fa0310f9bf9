//! What a kernel runs on.

use crate::flags::Flags;
use iopub_event::Event;
use kernel_jobs::{Inbox, Job};

/// What a kernel runs on: interpreters `I`, stamps `S` for ids and dates, and writers `W` of subscribers.
#[derive(Drop)]
pub struct Parts<I, S, W> {
    /// The interpreter of shell, and its stamp.
    pub shell: (I, S),
    /// The interpreter of control, and its stamp.
    pub control: (I, S),
    /// What messages are signed with; empty if they aren't.
    pub key: Vec<u8>,
    /// How many publications may wait.
    pub capacity: usize,
    /// The messages on shell.
    pub shell_in: Inbox<Job>,
    /// The messages on control.
    pub control_in: Inbox<Job>,
    /// By which control stops what shell does, and others see that the kernel is to end.
    pub flags: Flags,
    /// What subscribers come, ask for and leave by.
    pub subscriptions_in: Inbox<Event<W>>,
}
