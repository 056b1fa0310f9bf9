//! Values that are put behind the others and taken from the front.

ghost use Rattle.std.specs.Prelude.{◌≡◌, ◌≤◌, [], ◌++◌, IfOk, drop, length};

use std::alloc::{AllocError, Global};
use std::marker::Model;

/// Values, some of which are left out in front: a contract sees the list of the others. They lie side by side.
#[derive(Drop)]
pub(crate) struct Stream<T> {
    /// The values.
    items: Vec<T>,
    /// How many of them are left out.
    start: usize,
}

impl<T> Model for Stream<T> {
    ghost use Rattle.std.specs.Prelude.{List, ◌≤◌, drop, length};

    ghost Value = { List T };

    ghost view = { λ s. drop s.start s.items.items };

    ghost invariant = { λ s. s.start ≤ length s.items.items };
}

impl<T: Copy> Stream<T> {
    /// No values.
    pub(crate) fn new(alloc: Global) -> Stream<T>
        ensures { result ≡ [] }
    {
        Stream {
            items: Vec::new(alloc),
            start: 0,
        }
    }

    /// The values as a slice.
    #[inline(always)]
    pub(crate) fn as_slice(&self) -> &[T]
        ensures { result.now ≡ self.now }
    {
        &self.items[self.start..]
    }

    /// Puts values behind the others.
    pub(crate) fn append(&mut self, values: &[T]) -> Result<(), AllocError>
        ensures { IfOk result (λ _. self.new ≡ self.old ++ values.now) }
    {
        self.items.extend_from_slice(values)
    }

    /// Leaves the first values out.
    pub(crate) fn skip(&mut self, count: usize)
        requires { count ≤ length self.old }
        ensures { self.new ≡ drop count self.old }
    {
        self.start += count;
    }

    /// Leaves no value.
    pub(crate) fn clear(&mut self)
        ensures { self.new ≡ [] }
    {
        self.items.clear();
        self.start = 0;
    }
}
