//! Requests that are to be answered.

use crate::does::Does;
use listed::{Frames, Text};

/// What a request is answered by whose block is open.
#[derive(Drop)]
pub(crate) struct Pending {
    /// The identities of who sent it.
    pub(crate) identities: Frames,
    /// Its type.
    pub(crate) msg_type: Text,
    /// What it comes to.
    pub(crate) does: Does,
}
