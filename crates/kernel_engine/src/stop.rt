//! What stops a cell between two steps.

ghost use Rattle.std.specs.Prelude.{IsTrue};

/// Asked before each step of a cell whether the cell is to stop.
pub trait Stop {
    /// Whether a yes can come.
    ghost may_ask: { Self → Type 0 };

    /// Whether the cell that runs is to be interrupted. Nothing else is known of the answers.
    fn asked(&self) -> bool
        ensures { IsTrue result → may_ask self.now };
}
