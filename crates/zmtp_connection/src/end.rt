//! How a connection ends.

use crate::fault::ConnectionFault;
use zmtp_wire::WireFault;

/// How a connection with a peer ended.
#[derive(Clone, Copy, Debug)]
pub enum ConnectionEnd {
    /// The peer sent its last octet, also inside a greeting or a message.
    Eof,
    /// The peer broke the protocol or sent the command ERROR, or no memory was left for its octets; or, as `Spent`,
    /// it had been heard before.
    Wire(WireFault),
    /// The connection couldn't go on.
    Failed(ConnectionFault),
}

/// How hearing or serving a peer ended.
#[derive(Drop)]
pub enum Ending<E> {
    /// As the connection did.
    Connection(ConnectionEnd),
    /// As what hears or serves the peer said.
    Host(E),
}
