//! Messages opened, by their parts.

ghost use Rattle.std.specs.Prelude.{◌≡◌, Some};
ghost use Rattle.jmsg_envelope.specs.Header.{header_names};

use listed::{Frames, Octets, Text};

/// An opened message: its frames by their parts, and the id and the type that its header names. Its type keeps that
/// the header names them.
#[derive(Debug, Drop)]
pub struct Envelope {
    /// The frames before the delimiter.
    pub identities: Frames,
    /// The header's octets, as they came.
    pub header: Octets,
    /// The text under `msg_id` in the header.
    pub msg_id: Text,
    /// The text under `msg_type` in the header.
    pub msg_type: Text,
    /// The parent header's octets, as they came.
    pub parent: Octets,
    /// The metadata's octets, as they came.
    pub metadata: Octets,
    /// The content's octets, as they came.
    pub content: Octets,
    /// The frames after the content.
    pub buffers: Frames,
    /// The header names the id and the type.
    pub ghost named: { header_names header ≡ Some (msg_id, msg_type) },
}
