//! Words, by which one holder of the queue tells another what it knows.

use crate::line::Seat;
use std::marker::Model;

/// A word of a publisher: all that it was told of, and so all that it published, in the queue's order. To hold it takes
/// no memory, and it may go to any thread.
#[derive(Drop)]
pub struct Word<T> {
    /// The seat that tells it.
    pub(crate) seat: Seat<T>,
}

impl<T> Model for Word<T> {
    ghost use Rattle.iopub_queue.specs.Values.{Told};

    ghost Value = { Told T };

    ghost use Rattle.iopub_queue.specs.Values.{telling};
    ghost use Rattle.iopub_queue.specs.Held.{MayTell};

    ghost view = { λ word. telling word.seat };

    ghost invariant = { λ word. MayTell word.seat };
}
