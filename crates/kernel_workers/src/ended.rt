//! What a worker of shell or control leaves, and why it ended.

ghost use Rattle.std.specs.Prelude.{◌≡◌};
ghost use Rattle.kernel_workers.specs.Causes.{restart_of};

use crate::work::Work;
use interp_core::Interpreter;
use jmsg_envelope::{Envelope, Stamp};
use kernel_jobs::ReplyTo;
use std::sync::Wait;

/// What a worker of shell or control leaves.
#[derive(Drop)]
pub struct Ended<I: Interpreter, S: Stamp, W, R: Wait> {
    /// What it had at hand.
    pub work: Work<I, S, W, R>,
    /// Why it ended.
    pub cause: Cause,
    /// Whether it published that the kernel starts. Control's doesn't.
    pub started: bool,
}

/// Why a worker ends.
#[derive(Drop)]
pub enum Cause {
    /// It was told to, or nobody is left who could tell it anything.
    Told,
    /// A request for a shutdown was handled, on shell.
    Shutdown {
        /// Whether the kernel is to begin anew.
        restart: bool,
    },
    /// A request for a shutdown came on control, and is still to be handled.
    Asked(Asking),
    /// All ids were given.
    Worn,
}

/// A request for a shutdown that is still to be handled.
#[derive(Drop)]
pub struct Asking {
    /// The request.
    pub request: Envelope,
    /// Where its reply goes.
    pub to: ReplyTo,
}

impl Cause {
    /// Whether the kernel is to begin anew, if a request for a shutdown was handled.
    pub(crate) fn restart(&self) -> Option<bool>
        ensures { result ≡ restart_of self.now }
    {
        match self {
            Cause::Shutdown { restart } => Some(*restart),
            Cause::Told | Cause::Asked(_) | Cause::Worn => None,
        }
    }
}
