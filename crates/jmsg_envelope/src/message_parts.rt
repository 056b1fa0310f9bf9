//! The parts that a message is sealed of.

use listed::{Frames, Octets};

/// The parts that a message is sealed of: the four that its signature is over, and its buffers.
#[derive(Debug, Drop)]
pub struct MessageParts {
    /// The header.
    pub header: Octets,
    /// The parent header.
    pub parent: Octets,
    /// The metadata.
    pub metadata: Octets,
    /// The content.
    pub content: Octets,
    /// The frames after the content.
    pub buffers: Frames,
}
