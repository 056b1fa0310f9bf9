//! Contents that are written, as answers have them, and the faults of contents.

use crate::spelling::Plain;
use jmsg_types::ContentFault;
use serde_json::Value;
use std::alloc::{AllocError, Global};
use std::str;

/// The number and the words of a fault.
pub(crate) fn told(alloc: Global, fault: ContentFault) -> Result<String, AllocError> {
    format!(in alloc; "{} {fault}", fault.number())
}

/// The text of a content that was made as JSON.
pub(crate) fn made(
    alloc: Global,
    content: Result<Value, ContentFault>,
) -> Result<String, AllocError> {
    match content {
        Ok(value) => {
            let text = value.to_string(alloc);
            drop(value);
            shown(alloc, text?.as_str())
        }
        Err(fault) => told(alloc, fault),
    }
}

/// The text of a content as it is sent.
pub(crate) fn sent(
    alloc: Global,
    content: Result<Vec<u8>, ContentFault>,
) -> Result<String, AllocError> {
    match content {
        Ok(octets) => shown(alloc, str::from_utf8(&octets).unwrap_or("no text")),
        Err(fault) => told(alloc, fault),
    }
}

/// A text as answers have it.
fn shown(alloc: Global, text: &str) -> Result<String, AllocError> {
    format!(in alloc; "{}", Plain(text))
}

/// What two ways come to: one text if it is the same, and else both.
pub(crate) fn agreed(
    alloc: Global,
    one: Result<String, AllocError>,
    other: Result<String, AllocError>,
) -> Result<String, AllocError> {
    let one = one?;
    let other = other?;
    if one == other {
        Ok(one)
    } else {
        format!(in alloc; "{one}, but also {other}")
    }
}
