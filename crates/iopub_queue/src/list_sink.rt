//! A sink that keeps what is published.

ghost use Rattle.std.specs.Prelude.{◌≡◌, ◌++◌, ◌∷◌, [], IfErr, OnErr, OnOk};

use crate::publish::Publish;
use crate::refused::Refused;
use std::alloc::Global;
use std::marker::Model;

/// A sink that keeps what is published: a contract sees the list of it. It is never closed, and refuses only if memory
/// is wanting.
#[derive(Debug, Drop)]
pub struct ListSink<T> {
    /// What was published, in its order.
    items: Vec<T>,
}

impl<T> Model for ListSink<T> {
    ghost use Rattle.std.specs.Prelude.{List};

    ghost Value = { List T };

    ghost view = { λ sink. sink.items.items };
}

impl<T> ListSink<T> {
    /// A sink that published nothing yet. Needs no memory.
    pub fn new(alloc: Global) -> ListSink<T>
        ensures { result ≡ [] }
    {
        ListSink {
            items: Vec::new(alloc),
        }
    }

    /// What was published, in its order.
    pub fn items(&self) -> &[T]
        ensures { result.now ≡ self.now }
    {
        self.items.as_slice()
    }

    /// The `Vec` that holds what was published, without a copy.
    pub fn into_items(self) -> Vec<T>
        ensures { result.items ≡ self }
    {
        self.items
    }
}

impl<T> Publish for ListSink<T> {
    ghost use Rattle.iopub_queue.specs.Sink.{list_sink};

    type Item = T;

    ghost sink = { list_sink };

    fn publish(&mut self, item: T) -> Result<(), Refused<T>>
        ensures published { OnOk result (self.new ≡ self.old ++ item ∷ []) }
        ensures unpublished { OnErr result (self.new ≡ self.old) }
        ensures returned { IfErr result (λ refused. refused.item ≡ item) }
    {
        match self.items.push(item) {
            Ok(()) => Ok(()),
            Err(failed) => Err(Refused { item: failed.value }),
        }
    }

    ghost laws = { record {
      same_itself = λ _. tt;
      same_on = λ _ _ _ _ _. tt;
      same_may_refuse = λ _ _ _. (λ _. tt, λ _. tt);
    } };
}
