//! A sink that wakes the relay.

ghost use Rattle.std.specs.Prelude.{◌≡◌, ◌++◌, ◌∷◌, [], Some, None, IfErr, OnErr, OnOk};
ghost use Rattle.iopub_queue.specs.Calls.{Adds};
ghost use Rattle.iopub_queue.specs.Entries.{StandsBehind};

use crossbeam_utils::sync::Unparker;
use iopub_queue::{Closed, Publish, PublishAfter, Publisher, Refused, Word};
use std::marker::Model;
use std::sync::Wait;

/// A publisher that wakes the relay's worker after each publication, and after its close. A contract sees the
/// publisher.
#[derive(Drop)]
pub struct Waking<T, R> {
    /// The publisher.
    publisher: Publisher<T, R>,
    /// What wakes the relay's worker.
    relay: Unparker,
}

impl<T, R> Model for Waking<T, R> {
    ghost use Rattle.iopub_queue.specs.Values.{Publishing};

    ghost Value = { Publishing T };

    ghost view = { λ waking. waking.publisher };
}

impl<T, R> Waking<T, R> {
    /// This publisher, which wakes the relay's worker.
    pub fn new(publisher: Publisher<T, R>, relay: Unparker) -> Waking<T, R>
        ensures { result ≡ publisher }
    {
        Waking { publisher, relay }
    }
}

impl<T: Drop, R: Wait + Drop> Waking<T, R> {
    /// Publishes the close, after all that this publisher published, and wakes the relay's worker. Needs no memory.
    pub fn close(self) -> Closed<T>
        ensures { Adds self None result }
    {
        let Waking { publisher, relay } = self;
        let Ok(closed) = publisher.close() else {
            unreachable!()
        };
        relay.unpark();
        closed
    }
}

impl<T, R: Wait> Publish for Waking<T, R> {
    ghost use Rattle.std.specs.Prelude.{refl};
    ghost use Rattle.std.proofs.Common.{◌∙◌};
    ghost use Rattle.iopub_queue.specs.Sink.{publisher_sink};

    type Item = T;

    ghost sink = { publisher_sink };

    fn publish(&mut self, item: T) -> Result<(), Refused<T>> {
        let published = self.publisher.publish(item);
        self.relay.unpark();
        published
    }

    ghost laws = { record {
      same_itself = λ _. (refl, refl);
      same_on = λ a b c ab bc. (bc.0 ∙ ab.0, bc.1 ∙ ab.1);
      same_may_refuse = λ _ _ _. (λ none. none, λ none. none);
    } };
}

impl<T, R: Wait> PublishAfter for Waking<T, R> {
    ghost publisher = { λ waking. waking };

    fn publish_after(&mut self, word: Word<T>, item: T) -> Result<(), Refused<T>>
        requires queue { word.queue ≡ self.old.queue }
        ensures published { OnOk result (self.new.published ≡ self.old.published ++ Some item ∷ []) }
        ensures unpublished { OnErr result (self.new.published ≡ self.old.published) }
        ensures returned { IfErr result (λ refused. refused.item ≡ item) }
        ensures allowed { OnErr result ⊥ }
        ensures same { (self.new.queue ≡ self.old.queue) × (self.new.number ≡ self.old.number) }
        ensures behind { OnOk result (StandsBehind self.new.told (self.old.number, Some item) word.list) }
    {
        let published = self.publisher.publish_after(word, item);
        self.relay.unpark();
        published
    }

    ghost stays = { λ one other same. same };
}
