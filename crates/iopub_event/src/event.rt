//! The events of a relay.

use listed::{Frames, Octets};

/// What a relay takes, one after the other. Subscribers are told apart by their ids; `W` is what their octets are
/// written to.
#[derive(Debug, Drop)]
pub enum Event<W> {
    /// A message for each subscriber with a topic that its first frame begins with.
    Message(Frames),
    /// A subscriber comes, with its writer.
    Attach(u64, W),
    /// A subscriber asks for a topic.
    Subscribe(u64, Octets),
    /// A subscriber gives a topic up.
    Cancel(u64, Octets),
    /// A subscriber asks for a PONG, by a PING of this context (ZeroMQ RFC 37, rule `ping`).
    Pong(u64, Octets),
    /// A subscriber leaves.
    Detach(u64),
}
