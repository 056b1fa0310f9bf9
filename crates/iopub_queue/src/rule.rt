//! The rule of the queue: what holds at each moment of what waits and of what each seat knows, and what each step
//! tells.

use crate::view::View;
use crossbeam_queue::protocol::{Join, Lesson, Outcome, Protocol, Split};

/// The rule: there is one lawful state of the core, and each seat knows a part of it.
pub(crate) struct InOrder;

impl<T> Protocol<(usize, Option<T>), View<T>> for InOrder {
    ghost use Rattle.iopub_queue.specs.Rule.{Kept};
    ghost use Rattle.iopub_queue.specs.Views.{taking};

    ghost holds = { Kept };

    ghost first = { taking };
}

/// A push of an entry by the seat of its number.
pub(crate) struct Publishing;

impl<T> Outcome<(usize, Option<T>), View<T>> for Publishing {
    ghost use Rattle.iopub_queue.specs.Steps.{Published};

    ghost then = { Published };
}

impl<T> Lesson<(usize, Option<T>), View<T>> for Publishing {
    ghost use Rattle.std.specs.Prelude.{⊤};

    ghost fact = { λ view waiting. ⊤ };
}

/// A pop by the taker.
pub(crate) struct Taking;

impl<T> Outcome<(usize, Option<T>), View<T>> for Taking {
    ghost use Rattle.iopub_queue.specs.Steps.{Took};

    ghost then = { Took };
}

impl<T> Lesson<(usize, Option<T>), View<T>> for Taking {
    ghost use Rattle.iopub_queue.specs.Steps.{Sees};

    ghost fact = { Sees };
}

/// One more number is split off the taker's seat.
pub(crate) struct Opening;

impl<T> Split<View<T>> for Opening {
    ghost use Rattle.iopub_queue.specs.Views.{one_more, newcomer};

    ghost left = { one_more };

    ghost right = { newcomer };
}

/// A word is split off.
pub(crate) struct Telling;

impl<T> Split<View<T>> for Telling {
    ghost use Rattle.iopub_queue.specs.Views.{word_of};

    ghost left = { λ view. view };

    ghost right = { word_of };
}

/// A word is taken in, by the taker or by a publisher.
pub(crate) struct Learning;

impl<T> Join<View<T>> for Learning {
    ghost use Rattle.iopub_queue.specs.Views.{learnt, spent};

    ghost both = { learnt };

    ghost spent = { spent };
}

/// A publisher's seat goes over to the taker.
pub(crate) struct Settling;

impl<T> Join<View<T>> for Settling {
    ghost use Rattle.iopub_queue.specs.Views.{settled_with, spent};

    ghost both = { settled_with };

    ghost spent = { spent };
}
