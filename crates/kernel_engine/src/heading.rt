//! What the messages of one block share.

use listed::{Octets, Text};

/// What the messages of one block share ('Messaging in Jupyter' 5.3, "General Message Format").
#[derive(Debug, Drop)]
pub struct Heading {
    /// The date of their headers.
    pub date: Text,
    /// Their parent header: the header of the request, as it came.
    pub parent: Octets,
}
