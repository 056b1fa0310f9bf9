//! The taker.

ghost use Rattle.std.specs.Prelude.{◌≡◌, ℕ};
ghost use Rattle.iopub_queue.specs.Entries.{part_of, Agree, CloseIsLast};
ghost use Rattle.iopub_queue.specs.Calls.{TakeGives, Learns, Settles};

use crate::closed::Closed;
use crate::line::{Line, Seat, join_publisher, join_word, look, pop};
use crate::taken::{Settled, Taken};
use crate::word::Word;
use std::alloc::Global;
use std::marker::Model;
use std::sync::{Arc, Wait};

/// The taker of a queue, which takes what the publishers published. There is one, and it may go to any thread.
#[derive(Drop)]
pub struct Taker<T, R> {
    /// The queue.
    pub(crate) line: Arc<Line<T>, Global>,
    /// The taker's seat.
    pub(crate) seat: Seat<T>,
    /// For each number whether its close was taken.
    pub(crate) closed: Vec<bool>,
    /// How many closes weren't taken.
    pub(crate) left: usize,
    /// By which it waits.
    pub(crate) rt: R,
}

impl<T, R> Model for Taker<T, R> {
    ghost use Rattle.iopub_queue.specs.Values.{Taking};

    ghost Value = { Taking T };

    ghost use Rattle.std.specs.Arc.{arc_value};
    ghost use Rattle.iopub_queue.specs.Values.{taking_by};
    ghost use Rattle.iopub_queue.specs.Held.{MayTake};

    ghost view = { λ taker. taking_by taker.seat };

    ghost invariant = { λ taker. MayTake (arc_value taker.line) taker.seat taker.closed.items taker.left };
}

impl<T, R> Taker<T, R> {
    /// What is true of every taker. What it was told of is a beginning of what it took, or that of what it was told of.
    /// In the part of each publisher in what it took a close stands last. Does nothing.
    pub fn is_in_order(&self)
        ensures agree { Agree self.now.told self.now.taken }
        ensures closes { (number : ℕ) → CloseIsLast (part_of number self.now.taken) }
    {
        let _ = &self.left;
    }

    /// Takes a word in. Waits for nobody, and needs no memory.
    pub fn learn(&mut self, word: Word<T>)
        requires queue { word.queue ≡ self.old.queue }
        ensures queue { (self.new.queue ≡ self.old.queue) × (self.new.count ≡ self.old.count) }
        ensures learnt { Learns self.old word self.new }
    {
        join_word(&self.line, &mut self.seat, word.seat);
        look(&self.line, &mut self.seat);
    }
}

impl<T: Drop, R> Taker<T, R> {
    /// How much of what a publisher published was taken. Waits for nobody, and needs no memory.
    pub fn settle(&mut self, closed: Closed<T>) -> Settled
        requires queue { closed.queue ≡ self.old.queue }
        ensures same { self.new ≡ self.old }
        ensures settled { Settles self.old closed result }
    {
        let number = closed.number;
        join_publisher(&self.line, &mut self.seat, closed.seat);
        look(&self.line, &mut self.seat);
        if self.closed[number] {
            Settled::Whole
        } else {
            Settled::Beginning
        }
    }
}

impl<T, R: Wait> Taker<T, R> {
    /// Takes the entry that waits first. If the closes of all publishers were taken it says so, in one look. Needs no
    /// memory.
    pub fn take(&mut self) -> Taken<T>
        ensures queue { (self.new.queue ≡ self.old.queue) × (self.new.count ≡ self.old.count) }
        ensures given { TakeGives self.old result self.new }
    {
        if self.left == 0 {
            return Taken::Complete;
        }
        match pop(&self.rt, &self.line, &mut self.seat) {
            None => Taken::Empty,
            Some((number, Some(item))) => Taken::Item(number, item),
            Some((number, None)) => {
                self.closed[number] = true;
                self.left -= 1;
                Taken::Closed(number)
            }
        }
    }
}
