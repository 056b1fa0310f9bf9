//! The closing tokens of publishers.

ghost use Rattle.std.specs.Prelude.{◌≡◌};
ghost use Rattle.iopub_queue.specs.Entries.{part_of};

use crate::line::{Line, Seat, split_word};
use crate::word::Word;
use std::alloc::Global;
use std::marker::Model;
use std::sync::Arc;

/// What is left of a publisher that closed or abandoned. The taker settles with it, once.
#[derive(Drop)]
pub struct Closed<T> {
    /// The queue.
    pub(crate) line: Arc<Line<T>, Global>,
    /// The seat of the number.
    pub(crate) seat: Seat<T>,
    /// The number.
    pub(crate) number: usize,
}

impl<T> Model for Closed<T> {
    ghost use Rattle.iopub_queue.specs.Values.{Publishing};

    ghost Value = { Publishing T };

    ghost use Rattle.std.specs.Arc.{arc_value};
    ghost use Rattle.iopub_queue.specs.Values.{publishing};
    ghost use Rattle.iopub_queue.specs.Held.{HoldsSeat};

    ghost view = { λ closed. publishing closed.seat };

    ghost invariant = { λ closed. HoldsSeat (arc_value closed.line) closed.seat closed.number };
}

impl<T> Closed<T> {
    /// The publisher's number.
    pub fn number(&self) -> usize
        ensures { result ≡ self.now.number }
    {
        self.number
    }

    /// A word of all that the publisher was told of. So it tells of all that the publisher published, with its close if
    /// it closed. Waits for nobody, and needs no memory.
    pub fn word(&mut self) -> Word<T>
        ensures same { self.new ≡ self.old }
        ensures word { result ≡ record {
          queue = self.old.queue;
          list = self.old.told;
        } }
        ensures own { part_of self.old.number result.list ≡ self.old.published }
    {
        Word {
            seat: split_word(&self.line, &mut self.seat),
        }
    }
}
