//! A list that only contracts read.

ghost use Rattle.std.specs.Borrow.{ftrue};
ghost use Rattle.std.specs.Prelude.{◌≡◌, List, [], ◌∷◌, ◌++◌};

use std::marker::{Model, PhantomData};

/// A list of values as contracts saw them. It takes no memory, and its methods do nothing as the program runs. Nothing
/// but the clauses of its methods ties it to anything, so it says as much as the calls that keep it.
#[derive(Drop)]
pub struct Log<T> {
    /// What it lists.
    of: PhantomData<T>,
    pub ghost items: { List T },
}

impl<T> Model for Log<T> {
    ghost also_owns = { λ _. ftrue };
}

// It owns nothing.
unsafe impl<T: Send> Send for Log<T> {}

impl<T> Log<T> {
    /// The empty list.
    pub fn new() -> Log<T>
        ensures { result.items ≡ [] }
    {
        Log { of: PhantomData }
    }

    /// The list with this value after all others.
    pub fn and(&self, item: &T) -> Log<T>
        ensures { result.items ≡ self.now.items ++ item.now ∷ [] }
    {
        Log { of: PhantomData }
    }

    /// The list with these values after all others.
    pub fn and_all(&self, items: &[T]) -> Log<T>
        ensures { result.items ≡ self.now.items ++ items.now }
    {
        Log { of: PhantomData }
    }
}
