//! What the seats at the queue know. A seat is what a publisher, a closing token, a word or the taker holds of the
//! queue. No value of these types is ever made: they stand in the rule of the queue alone.

use std::collections::LinkedList;

/// What a seat is for.
pub(crate) enum Role {
    /// It holds a publisher's number.
    Publishes,
    /// It takes.
    Takes,
    /// It holds a word.
    Tells,
    /// It was given up.
    Spent,
}

/// A publisher's seat as it was when the taker settled with it.
pub(crate) struct Ended<T> {
    /// The publisher's number.
    pub(crate) number: usize,
    /// All that it published.
    pub(crate) published: LinkedList<Option<T>>,
    /// What it knew of the queue's history.
    pub(crate) told: LinkedList<(usize, Option<T>)>,
}

/// What a seat knows.
pub(crate) struct View<T> {
    /// What the seat is for.
    pub(crate) role: Role,
    /// The number of a publisher; of the taker how many numbers there are.
    pub(crate) number: usize,
    /// What a publisher published.
    pub(crate) published: LinkedList<Option<T>>,
    /// What the history of the queue begins with.
    pub(crate) seen: LinkedList<(usize, Option<T>)>,
    /// What the history begins with by the last word that was taken in.
    pub(crate) heard: LinkedList<(usize, Option<T>)>,
    /// What the taker took.
    pub(crate) taken: LinkedList<(usize, Option<T>)>,
    /// The publishers that the taker settled with.
    pub(crate) settled: LinkedList<Ended<T>>,
}
