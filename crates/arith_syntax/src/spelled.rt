//! A token with the length of what spells it.

use crate::token::Token;

/// A token and how many octets spell it.
#[derive(Drop)]
pub(crate) struct Spelled {
    /// The token.
    pub(crate) token: Token,
    /// How many octets spell it.
    pub(crate) size: usize,
}
