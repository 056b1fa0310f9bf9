//! What the taker answers.

/// What a take gives.
#[derive(Debug, Drop)]
pub enum Taken<T> {
    /// An item that the publisher of this number published.
    Item(usize, T),
    /// The close of the publisher of this number.
    Closed(usize),
    /// Nothing was taken: all that the taker was told of has been taken, and a close is missing.
    Empty,
    /// The closes of all publishers were taken: nothing comes any more.
    Complete,
}

/// How much of what a publisher published was taken.
#[derive(Clone, Copy, Debug, PartialEq, Eq)]
pub enum Settled {
    /// All, up to its close.
    Whole,
    /// A beginning. Its close wasn't taken.
    Beginning,
}
