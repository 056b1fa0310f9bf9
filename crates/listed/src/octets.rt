//! Octets that are owned.

ghost use Rattle.std.specs.Prelude.{◌≡◌, ◌==◌, length};

use std::marker::Model;

/// Octets that are owned: a contract sees the list of them.
#[derive(Debug, Drop)]
pub struct Octets {
    /// The octets.
    items: Vec<u8>,
}

impl Model for Octets {
    ghost use Rattle.std.specs.Prelude.{ℕ, List};

    ghost Value = { List ℕ };

    ghost view = { λ o. o.items.items };
}

impl Octets {
    /// The octets of `items`, without a copy.
    pub fn new(items: Vec<u8>) -> Octets
        ensures { result ≡ items.items }
    {
        Octets { items }
    }

    /// How many octets there are.
    pub fn len(&self) -> usize
        ensures { result ≡ length self.now }
    {
        self.items.len()
    }

    /// Whether there is none.
    pub fn is_empty(&self) -> bool
        ensures { result ≡ (length self.now == 0) }
    {
        self.items.is_empty()
    }

    /// The octets as a slice.
    pub fn as_slice(&self) -> &[u8]
        ensures { result.now ≡ self.now }
    {
        self.items.as_slice()
    }

    /// The `Vec` that holds the octets, without a copy.
    pub fn into_vec(self) -> Vec<u8>
        ensures { result.items ≡ self }
    {
        self.items
    }
}
