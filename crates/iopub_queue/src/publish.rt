//! The interface of a sink.

ghost use Rattle.std.specs.Prelude.{◌≡◌, ◌++◌, ◌∷◌, [], Some, IfErr, OnErr, OnOk};
ghost use Rattle.iopub_queue.specs.Sink.{Sink, SinkLaws};

use crate::refused::Refused;

/// A sink, which publishes one item after the other.
pub trait Publish {
    /// What is published.
    type Item;

    /// What is published so far, whether the sink may refuse, and which value is the same sink later.
    ghost sink: { Sink Self Self.Item };

    /// Publishes an item: it stands at the end of the list. The sink stays the same sink, also if it refuses.
    ///
    /// # Errors
    ///
    /// If the sink refused. The list is as it was, and the item comes back.
    fn publish(&mut self, item: Self::Item) -> Result<(), Refused<Self::Item>>
        ensures published { OnOk result (sink.items self.new ≡ sink.items self.old ++ Some item ∷ []) }
        ensures unpublished { OnErr result (sink.items self.new ≡ sink.items self.old) }
        ensures returned { IfErr result (λ refused. refused.item ≡ item) }
        ensures allowed { OnErr result (sink.may_refuse self.old) }
        ensures same { sink.is_same self.old self.new };

    /// A sink stays the same sink, and while it does, whether it may refuse stays.
    ghost laws: { SinkLaws sink };
}
