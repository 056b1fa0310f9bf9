//! Outlets that may keep for a while what was written to them.

ghost use Rattle.std.specs.Prelude.{◌≡◌};

use std::io::Write;
use zmtp_wire::{Counted, Outlet};

/// What outlets keep after a flush.
#[derive(Clone, Copy, Debug, PartialEq, Eq)]
pub enum Rest {
    /// Nothing.
    Nothing,
    /// Something, for which there was no room.
    Stuck,
    /// Something, of which there was more before.
    Less,
}

impl Rest {
    /// What two outlets keep, one of which keeps this, and the other that.
    pub(crate) fn and(self, other: Rest) -> Rest {
        match (self, other) {
            (Rest::Nothing, rest) | (rest, Rest::Nothing) => rest,
            (Rest::Less, _) | (_, Rest::Less) => Rest::Less,
            (Rest::Stuck, Rest::Stuck) => Rest::Stuck,
        }
    }
}

/// An outlet that may keep for a while what was written to it.
pub trait Buffered: Outlet {
    /// Passes on what is kept, as far as nobody has to be waited for, and answers what is kept
    /// still.
    fn flush(&mut self) -> Rest
        ensures same { Self.outflow self.new ≡ Self.outflow self.old };

    /// Whether so much is kept that nothing more is to be written until some of it was passed on.
    /// An outlet that isn't waited for any more is never crowded.
    fn is_crowded(&self) -> bool;
}

/// One that keeps nothing.
impl<D: Write> Buffered for Counted<D> {
    fn flush(&mut self) -> Rest {
        Rest::Nothing
    }

    fn is_crowded(&self) -> bool {
        false
    }
}
