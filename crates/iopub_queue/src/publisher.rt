//! Publishers.

ghost use Rattle.std.specs.Prelude.{◌≡◌, ◌++◌, ◌∷◌, [], Some, None, Ok, IfErr, IsOkAnd, OnErr, OnOk};
ghost use Rattle.iopub_queue.specs.Entries.{part_of, StandsBehind};
ghost use Rattle.iopub_queue.specs.Calls.{Adds};

use crate::closed::Closed;
use crate::line::{Line, Seat, join_word, push, split_word};
use crate::publish::Publish;
use crate::publish_after::PublishAfter;
use crate::refused::Refused;
use crate::word::Word;
use std::alloc::Global;
use std::marker::Model;
use std::sync::{Arc, Wait};

/// A publisher of a queue, which publishes items and then its close. It never refuses, and needs no memory. There is
/// one of each number, and it may go to any thread.
#[derive(Drop)]
pub struct Publisher<T, R> {
    /// The queue.
    pub(crate) line: Arc<Line<T>, Global>,
    /// The seat of the number.
    pub(crate) seat: Seat<T>,
    /// The number.
    pub(crate) number: usize,
    /// By which it waits.
    pub(crate) rt: R,
}

impl<T, R> Model for Publisher<T, R> {
    ghost use Rattle.iopub_queue.specs.Values.{Publishing};

    ghost Value = { Publishing T };

    ghost use Rattle.std.specs.Arc.{arc_value};
    ghost use Rattle.iopub_queue.specs.Values.{publishing};
    ghost use Rattle.iopub_queue.specs.Held.{MayPublish};

    ghost view = { λ publisher. publishing publisher.seat };

    ghost invariant = { λ publisher. MayPublish (arc_value publisher.line) publisher.seat publisher.number };
}

impl<T, R> Publisher<T, R> {
    /// The number.
    pub fn number(&self) -> usize
        ensures { result ≡ self.now.number }
    {
        self.number
    }

    /// A word of all that this publisher was told of, and so of all that it published. Waits for nobody, and needs no
    /// memory.
    pub fn tell(&mut self) -> Word<T>
        ensures same { self.new ≡ self.old }
        ensures word { result ≡ record {
          queue = self.old.queue;
          list = self.old.told;
        } }
        ensures own { part_of self.old.number result.list ≡ self.old.published }
    {
        Word {
            seat: split_word(&self.line, &mut self.seat),
        }
    }
}

impl<T, R: Drop> Publisher<T, R> {
    /// Publishes no close. Waits for nobody, and needs no memory.
    pub fn abandon(self) -> Closed<T>
        ensures { result ≡ self }
    {
        Closed {
            line: self.line,
            seat: self.seat,
            number: self.number,
        }
    }
}

impl<T, R: Wait> Publisher<T, R> {
    /// Publishes an item: it stands after all that this publisher published or was told of. While the queue is full it
    /// is tried again. Needs no memory.
    ///
    /// # Errors
    ///
    /// None.
    pub fn publish(&mut self, item: T) -> Result<(), Refused<T>>
        ensures done { result ≡ Ok tt }
        ensures adds { Adds self.old (Some item) self.new }
    {
        let entry = (self.number, Some(item));
        push(&self.rt, &self.line, &mut self.seat, entry);
        Ok(())
    }

    /// Publishes an item after all that the word tells of, too. Needs no memory.
    ///
    /// # Errors
    ///
    /// None.
    pub fn publish_after(&mut self, word: Word<T>, item: T) -> Result<(), Refused<T>>
        requires queue { word.queue ≡ self.old.queue }
        ensures done { result ≡ Ok tt }
        ensures adds { Adds self.old (Some item) self.new }
        ensures behind { StandsBehind self.new.told (self.old.number, Some item) word.list }
    {
        join_word(&self.line, &mut self.seat, word.seat);
        let behind = (self.number, Some(item));
        push(&self.rt, &self.line, &mut self.seat, behind);
        Ok(())
    }
}

impl<T, R: Wait + Drop> Publisher<T, R> {
    /// Publishes the close, after all that this publisher published or was told of. While the queue is full it is tried
    /// again. Needs no memory.
    ///
    /// # Errors
    ///
    /// None.
    pub fn close(self) -> Result<Closed<T>, Publisher<T, R>>
        ensures { IsOkAnd result (λ closed. Adds self None closed) }
    {
        let Publisher {
            line,
            mut seat,
            number,
            rt,
        } = self;
        push(&rt, &line, &mut seat, (number, None));
        Ok(Closed { line, seat, number })
    }
}

impl<T, R: Wait> Publish for Publisher<T, R> {
    ghost use Rattle.std.specs.Prelude.{refl};
    ghost use Rattle.std.proofs.Common.{◌∙◌};
    ghost use Rattle.iopub_queue.specs.Sink.{publisher_sink};

    type Item = T;

    ghost sink = { publisher_sink };

    fn publish(&mut self, item: T) -> Result<(), Refused<T>> {
        Publisher::publish(self, item)
    }

    ghost laws = { record {
      same_itself = λ _. (refl, refl);
      same_on = λ a b c ab bc. (bc.0 ∙ ab.0, bc.1 ∙ ab.1);
      same_may_refuse = λ _ _ _. (λ none. none, λ none. none);
    } };
}

impl<T, R: Wait> PublishAfter for Publisher<T, R> {
    ghost publisher = { λ publisher. publisher };

    fn publish_after(&mut self, word: Word<T>, item: T) -> Result<(), Refused<T>>
        requires queue { word.queue ≡ self.old.queue }
        ensures published { OnOk result (self.new.published ≡ self.old.published ++ Some item ∷ []) }
        ensures unpublished { OnErr result (self.new.published ≡ self.old.published) }
        ensures returned { IfErr result (λ refused. refused.item ≡ item) }
        ensures allowed { OnErr result ⊥ }
        ensures same { (self.new.queue ≡ self.old.queue) × (self.new.number ≡ self.old.number) }
        ensures behind { OnOk result (StandsBehind self.new.told (self.old.number, Some item) word.list) }
    {
        Publisher::publish_after(self, word, item)
    }

    ghost stays = { λ one other same. same };
}
