//! What is sent.

use std::alloc::Global;

/// An item that is made of a number.
pub(crate) trait Load {
    /// The item of this number, or none where memory is wanting.
    fn make(alloc: Global, number: u64) -> Option<Self>
    where
        Self: Sized;
}

impl Load for u64 {
    fn make(_: Global, number: u64) -> Option<u64> {
        Some(number)
    }
}

/// A message in a box of its own.
#[derive(Drop)]
pub(crate) struct Message {
    /// Its words.
    words: Box<[u64; 8], Global>,
}

impl Load for Message {
    fn make(alloc: Global, number: u64) -> Option<Message> {
        match Box::new(alloc, [number; 8]) {
            Ok(words) => Some(Message { words }),
            Err(_) => None,
        }
    }
}
