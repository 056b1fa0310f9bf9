//! The signed envelope of a message ('Messaging in Jupyter' 5.3, "The Wire Protocol").
//!
//! A message is a list of frames: identities, the delimiter `<IDS|MSG>`, a signature, header, parent
//! header, metadata, content, and then any buffers. The signature is HMAC-SHA256 (RFC 2104) over the
//! four parts as they stand, in hex.
#![tactic(auto)]

mod envelope;
mod fault;
mod header;
mod hmac;
mod laws;
mod message_parts;
mod opening;
mod sealing;
mod signer;
mod split;
mod stamp;

pub use envelope::Envelope;
pub use fault::EnvelopeFault;
pub use header::header_text;
pub use hmac::hmac_sha256;
pub use laws::{
    law_opened_once, law_refused_is_not_opened, law_refused_once, law_sealed_is_opened,
};
pub use message_parts::MessageParts;
pub use opening::{check_signature, open_envelope};
pub use sealing::seal;
pub use signer::Signer;
pub use stamp::Stamp;
