//! A block that is open.

use crate::fault::EngineFault;
use crate::heading::Heading;
use crate::response::Response;
use listed::Frames;

/// A block that is open: what its messages share, the message that closes it, and whether its cell is silent.
#[derive(Debug, Drop)]
pub(crate) struct OpenBlock {
    /// What its messages share.
    pub(crate) heading: Heading,
    /// The message that the kernel is idle.
    pub(crate) idle: Frames,
    /// Whether nothing of its cell is published.
    pub(crate) silent: bool,
}

/// A request whose block is open.
#[derive(Drop)]
pub(crate) struct Begun {
    /// The block.
    pub(crate) block: OpenBlock,
    /// What it was answered, or that memory was refused.
    pub(crate) answered: Result<Response, EngineFault>,
}
