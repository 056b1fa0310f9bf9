//! A law of what sockets accept, which is the contract of a function that does nothing.

ghost use Rattle.kernel_outlet.specs.Fed.{GetsSoSocketIsFed};

/// If a relay's writer for a subscriber is a pipe, what the pipe's spout accepted is a beginning of
/// the subscriber's feed; and all of it if nothing failed and nothing is kept.
pub fn law_socket_is_fed()
    ensures { GetsSoSocketIsFed }
{}
