//! The interface of a sink that publishes after a word.

ghost use Rattle.std.specs.Prelude.{◌≡◌, ◌++◌, ◌∷◌, [], Some, IfErr, OnErr, OnOk};
ghost use Rattle.iopub_queue.specs.Entries.{StandsBehind};
ghost use Rattle.iopub_queue.specs.Values.{Publishing};

use crate::publish::Publish;
use crate::refused::Refused;
use crate::word::Word;

/// A sink by which an item may be published after all that a word tells of.
pub trait PublishAfter: Publish {
    /// The publisher by which the sink publishes.
    ghost publisher: { Self → Publishing Self.Item };

    /// Publishes an item as `publish` does, and after all that the word tells of.
    ///
    /// # Errors
    ///
    /// If the sink refused. The list is as it was, the item comes back, and the word is spent.
    fn publish_after(
        &mut self,
        word: Word<Self::Item>,
        item: Self::Item,
    ) -> Result<(), Refused<Self::Item>>
        requires queue { word.queue ≡ (publisher self.old).queue }
        ensures published { OnOk result (Self.sink.items self.new ≡ Self.sink.items self.old ++ Some item ∷ []) }
        ensures unpublished { OnErr result (Self.sink.items self.new ≡ Self.sink.items self.old) }
        ensures returned { IfErr result (λ refused. refused.item ≡ item) }
        ensures allowed { OnErr result (Self.sink.may_refuse self.old) }
        ensures same { Self.sink.is_same self.old self.new }
        ensures behind { OnOk result (StandsBehind (publisher self.new).told
            ((publisher self.old).number, Some item) word.list) };

    /// While it is the same sink it is of the same queue, under the same number.
    ghost stays: { (one other : Self) → Self.sink.is_same one other
        → ((publisher other).queue ≡ (publisher one).queue) × ((publisher other).number ≡ (publisher one).number) };
}
