//! Messages by which a peer shows that it holds the key.

use kernel_limits::is_sent_by_clients;
use serde_json::Value;
use std::alloc::{AllocError, Global};

/// What stands before a message's signature ('Messaging in Jupyter' 5.3, "The Wire Protocol").
const DELIMITER: &[u8] = b"<IDS|MSG>";

/// Whether a message that is signed is one that the kernel signs itself for nobody: by its header's type.
///
/// # Errors
///
/// If memory is refused.
pub(crate) fn shows_key(alloc: Global, frames: &[Vec<u8>]) -> Result<bool, AllocError> {
    let Some(octets) = header_of(frames) else {
        return Ok(false);
    };
    match Value::from_slice(alloc, octets) {
        Ok(header) => {
            let is_shown = names_asked(&header);
            drop(header);
            Ok(is_shown)
        }
        Err(refusal) => {
            let is_memory = refusal.is_memory();
            drop(refusal);
            if is_memory {
                Err(AllocError)
            } else {
                Ok(false)
            }
        }
    }
}

/// The octets of a message's header.
fn header_of(frames: &[Vec<u8>]) -> Option<&[u8]> {
    let place = frames
        .iter()
        .position(|frame| frame.as_slice() == DELIMITER)?;
    match frames.get(place.saturating_add(2)) {
        Some(header) => Some(header.as_slice()),
        None => None,
    }
}

/// Whether a header names a type of message that clients send and the kernel doesn't.
fn names_asked(header: &Value) -> bool {
    match header.get("msg_type").and_then(Value::as_str) {
        Some(kind) => is_sent_by_clients(kind.as_bytes()),
        None => false,
    }
}
