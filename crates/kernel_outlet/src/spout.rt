//! What octets leave by.

ghost use Rattle.std.specs.Prelude.{◌≡◌, ℕ, List};
ghost use Rattle.kernel_outlet.specs.Spout.{Sends};

/// What became of octets that were to leave at once.
#[derive(Clone, Copy, Debug, PartialEq, Eq)]
pub enum Sent {
    /// So many of the first of them left.
    Took(usize),
    /// There was no room for one.
    Full,
    /// None leaves any more.
    Broken,
}

/// What octets leave by at once, or not: a socket.
pub trait Spout {
    /// The octets that left, in their order.
    ghost accepted: { Self → List ℕ };

    /// Lets the first octets of a piece leave, as many as there is room for. Waits for nobody.
    fn send(&mut self, piece: &[u8]) -> Sent
        ensures { Sends (accepted self.old) (accepted self.new) result piece.now };
}
