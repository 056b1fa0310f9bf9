//! Frames that are owned.

ghost use Rattle.std.specs.Prelude.{◌≡◌, ◌==◌, length};
ghost use Rattle.listed.specs.Bodies.{bodies};

use std::marker::Model;

/// The frames of a message that are owned: a contract sees the list of their bodies.
#[derive(Debug, Drop)]
pub struct Frames {
    /// The frames, each with its body.
    items: Vec<Vec<u8>>,
}

impl Model for Frames {
    ghost use Rattle.std.specs.Prelude.{ℕ, List};
    ghost use Rattle.listed.specs.Bodies.{bodies};

    ghost Value = { List (List ℕ) };

    ghost view = { λ f. bodies f.items.items };
}

impl Frames {
    /// The frames of `items`, without a copy.
    pub fn new(items: Vec<Vec<u8>>) -> Frames
        ensures { result ≡ bodies items.items }
    {
        Frames { items }
    }

    /// How many frames there are.
    pub fn len(&self) -> usize
        ensures { result ≡ length self.now }
    {
        self.items.len()
    }

    /// Whether there is none.
    pub fn is_empty(&self) -> bool
        ensures { result ≡ (length self.now == 0) }
    {
        self.items.is_empty()
    }

    /// The frames as a slice, each with its body.
    pub fn as_slice(&self) -> &[Vec<u8>]
        ensures { bodies result.now ≡ self.now }
    {
        self.items.as_slice()
    }

    /// The `Vec` that holds the frames, without a copy.
    pub fn into_vec(self) -> Vec<Vec<u8>>
        ensures { bodies result.items ≡ self }
    {
        self.items
    }
}
