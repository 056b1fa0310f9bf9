//! A sink that refuses.

ghost use Rattle.std.specs.Prelude.{◌≡◌, []};

use iopub_event::Event;
use iopub_queue::{Publish, Refused};
use std::alloc::Global;

/// A sink that keeps what is published, and refuses its pushes from one to another, counted from 1.
#[derive(Drop)]
pub struct Refusing {
    /// The first push that it refuses.
    first: u64,
    /// The last push that it refuses.
    last: u64,
    /// How many pushes there were.
    pushes: u64,
    /// What was published.
    pub items: Vec<Event<()>>,
}

impl Refusing {
    /// A sink that has published nothing.
    pub fn new(alloc: Global, first: u64, last: u64) -> Refusing
        ensures { result.items.items ≡ [] }
    {
        Refusing {
            first,
            last,
            pushes: 0,
            items: Vec::new(alloc),
        }
    }
}

impl Publish for Refusing {
    ghost use Rattle.std.specs.Prelude.{Some, map};

    type Item = Event<()>;

    ghost sink = { record {
      items = λ sink. map Some sink.items.items;
      may_refuse = λ _. Unit;
      is_same = λ _ _. Unit;
    } };

    fn publish(&mut self, item: Event<()>) -> Result<(), Refused<Event<()>>> {
        self.pushes = self.pushes.saturating_add(1);
        if self.first <= self.pushes && self.pushes <= self.last {
            return Err(Refused { item });
        }
        match self.items.push(item) {
            Ok(()) => Ok(()),
            Err(failed) => Err(Refused { item: failed.value }),
        }
    }

    ghost laws = { record {
      same_itself = λ _. tt;
      same_on = λ _ _ _ _ _. tt;
      same_may_refuse = λ _ _ _. (λ _. tt, λ _. tt);
    } };
}
