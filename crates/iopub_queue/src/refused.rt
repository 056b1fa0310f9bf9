//! An item that wasn't published.

use thiserror::Error;

/// A sink refused an item: the item comes back.
#[derive(Debug, Drop, Error)]
#[error("the item was refused")]
pub struct Refused<T> {
    /// What was to be published.
    pub item: T,
}
