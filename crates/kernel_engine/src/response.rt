//! What a request is responded with.

use crate::does::Order;
use listed::Frames;

/// What a request is responded with that was handled.
#[derive(Debug, Drop)]
pub struct Response {
    /// The frames of its reply, if it has one.
    pub reply: Option<Frames>,
    /// What the kernel is to do.
    pub order: Order,
}
