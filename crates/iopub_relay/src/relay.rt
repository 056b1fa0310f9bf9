//! A relay: takes what publishers published, and serves it to its subscribers.

ghost use Rattle.std.specs.Prelude.{◌≡◌, ◌≤◌, ◌↔◌, ℕ, [], length, IfOk, IfErr, IsTrue, vec_capacity};
ghost use Rattle.std.specs.List.{AllByRecursion};
ghost use Rattle.iopub_queue.specs.Calls.{Learns};
ghost use Rattle.iopub_queue.specs.Entries.{part_of, Agree, CloseIsLast};
ghost use Rattle.iopub_relay.specs.Rows.{subscriber_at};
ghost use Rattle.iopub_relay.specs.Relay.{ServesTaken, Pumps, Drains, Meets, AreWhole, is_failed};
ghost use Rattle.iopub_relay.specs.Relay.{RelayIsLeft, left_by};
ghost use Rattle.iopub_relay.specs.Table.{AreAlike};

use crate::buffered::{Buffered, Rest};
use crate::subscriber::Subscriber;
use crate::table::{EventOutcome, Table};
use iopub_event::Event;
use iopub_queue::{Closed, Settled, Taken, Taker, Word};
use std::alloc::Global;
use std::marker::Model;
use std::sync::Wait;
use zmtp_wire::Outlet;

/// What a pump did.
#[derive(Clone, Copy, Debug, PartialEq, Eq)]
pub enum Pumped {
    /// It took an event and served it.
    Did,
    /// It took the close of the publisher of this number.
    Closed(usize),
    /// It took nothing: all that the relay was told of has been taken, and a close is missing.
    Empty,
    /// It took nothing: the closes of all publishers were taken.
    Complete,
    /// It took that this subscriber asks for a topic, and there was no memory for that: nothing more is written to it.
    NoTopic(u64),
    /// It took that this subscriber comes, and there was no memory for it: its writer was dropped.
    NoRoom(u64),
}

/// Why a drain ended.
#[derive(Clone, Copy, Debug, PartialEq, Eq)]
pub enum Drain {
    /// The closes of all publishers were taken.
    Complete,
    /// All that the relay was told of has been taken, and a close is missing.
    Empty,
    /// As many entries were taken as it was to take.
    More,
}

/// A relay. It takes messages, and events of subscribers, which come, ask for topics or a PONG, give topics up and
/// leave. It writes to each subscriber the messages and PONGs that are for it. It serves all that it took, without the
/// newcomers for which there was no memory.
#[derive(Drop)]
pub struct Relay<W: Outlet, R> {
    /// What it takes from.
    taker: Taker<Event<W>, R>,
    /// Its subscribers.
    table: Table<W>,
    /// How often there was no memory for a newcomer; at the greatest number it stays.
    no_room: u64,
}

impl<W: Outlet, R> Model for Relay<W, R> {
    ghost use Rattle.iopub_relay.specs.Relay.{Relaying};

    ghost Value = { Relaying W };

    ghost use Rattle.iopub_relay.specs.Within.{relaying, RelayKeeps};

    ghost view = { relaying };

    ghost invariant = { RelayKeeps W.outflow };
}

impl<W: Outlet, R> Relay<W, R> {
    /// A relay without subscribers. Needs no memory.
    pub fn new(alloc: Global, taker: Taker<Event<W>, R>) -> Relay<W, R>
        requires { taker.taken ≡ [] }
        ensures { result ≡ record { taker = taker; rows = []; no_room = 0 } }
    {
        Relay {
            taker,
            table: Table::new(alloc),
            no_room: 0,
        }
    }

    /// What is true of every relay: it serves what it took. Does nothing.
    pub fn serves_what_it_took(&self)
        ensures serves { ServesTaken W.outflow self.now }
        ensures agree { Agree self.now.taker.told self.now.taker.taken }
        ensures closes { (number : ℕ) → CloseIsLast (part_of number self.now.taker.taken) }
    {
        self.taker.is_in_order();
    }

    /// Takes a word in. Waits for nobody, and needs no memory.
    pub fn learn(&mut self, word: Word<Event<W>>)
        requires { word.queue ≡ self.old.taker.queue }
        ensures learns { Learns self.old.taker word self.new.taker }
        ensures rest { self.new ≡ record self.old { taker = self.new.taker } }
    {
        self.taker.learn(word);
    }

    /// How often there was no memory for a newcomer; at the greatest number it stays.
    pub fn no_room(&self) -> u64
        ensures { result ≡ self.now.no_room }
    {
        self.no_room
    }

    /// Whether a subscriber is there and has failed: a write to it failed or took nothing, or there was no memory for
    /// a topic that it asked for.
    pub fn failed(&self, id: u64) -> bool
        ensures { result ≡ is_failed (subscriber_at id self.now.rows) }
    {
        self.table.failed(id)
    }
}

impl<W: Buffered, R> Relay<W, R> {
    /// Has each subscriber's writer pass on what it keeps, as far as nobody has to be waited for,
    /// and answers what is kept still. What was written to each stays the same, and so does all
    /// else.
    pub fn flush(&mut self) -> Rest
        ensures rest { self.new ≡ record self.old { rows = self.new.rows } }
        ensures alike { AreAlike W.outflow self.old.rows self.new.rows }
    {
        let keeps = self.table.flush();
        self.table.is_rising();
        keeps
    }

    /// Whether so much is kept for a subscriber that hasn't failed that no entry is to be taken
    /// until some of it was passed on.
    pub fn is_crowded(&self) -> bool {
        self.table.is_crowded()
    }
}

impl<W: Outlet + Drop, R: Wait> Relay<W, R> {
    /// Takes one entry, and does all that it asks for: each write that it causes, too.
    pub fn pump(&mut self) -> Pumped
        ensures { Pumps W.outflow self.old result self.new }
    {
        match self.taker.take() {
            Taken::Complete => Pumped::Complete,
            Taken::Empty => Pumped::Empty,
            Taken::Closed(number) => Pumped::Closed(number),
            Taken::Item(_, event) => {
                let outcome = self.table.serve(event);
                self.table.is_rising();
                match outcome {
                    EventOutcome::Done => Pumped::Did,
                    EventOutcome::NoTopic(id) => Pumped::NoTopic(id),
                    EventOutcome::NoRoom(id) => {
                        self.no_room = self.no_room.saturating_add(1);
                        Pumped::NoRoom(id)
                    }
                }
            }
        }
    }

    /// Pumps until the closes of all publishers were taken, or nothing more is found, or this many entries were taken.
    pub fn drain(&mut self, limit: u64) -> Drain
        ensures { Drains W.outflow limit self.old result self.new }
    {
        for _ in 0..limit {
            match self.pump() {
                Pumped::Complete => return Drain::Complete,
                Pumped::Empty => return Drain::Empty,
                Pumped::Did | Pumped::Closed(_) | Pumped::NoTopic(_) | Pumped::NoRoom(_) => (),
            }
        }
        Drain::More
    }
}

impl<W: Outlet + Drop, R> Relay<W, R> {
    /// Settles with publishers, and answers whether the close of each was taken. Waits for nobody, and needs no
    /// memory.
    pub fn settle_all(&mut self, tokens: Vec<Closed<Event<W>>>) -> bool
        requires { AllByRecursion (λ closed. closed.queue ≡ self.old.taker.queue) tokens.items }
        ensures same { self.new ≡ self.old }
        ensures meets { AllByRecursion (Meets self.old.taker) tokens.items }
        ensures whole { IsTrue result ↔ AreWhole self.old.taker tokens.items }
    {
        settle_each(&mut self.taker, tokens)
    }

    /// The subscribers that are there, by rising ids: each with its writer, and whether it has failed.
    ///
    /// # Errors
    ///
    /// If memory was refused: the relay comes back as it was.
    pub fn finish(self) -> Result<Vec<(u64, W, bool)>, Relay<W, R>>
    where
        R: Drop,
        ensures rows { IfOk result (λ left. left.items ≡ left_by self.rows) }
        ensures left { IfOk result (λ left. RelayIsLeft W.outflow self.taker.taken self.no_room left.items) }
        ensures refused { IfErr result (λ relay. relay ≡ self) }
    {
        let Ok(mut left) = Vec::with_capacity(self.table.alloc(), self.table.len()) else {
            return Err(self);
        };
        list_up(&mut left, self.table.into_rows());
        Ok(left)
    }
}

/// Lists subscribers, each with its writer, and whether it has failed.
fn list_up<W: Drop>(left: &mut Vec<(u64, W, bool)>, rows: Vec<Subscriber<W>>)
    requires empty { left.old.items ≡ [] }
    requires room { length rows.items ≤ vec_capacity left.old }
    ensures { left.new.items ≡ left_by rows.items }
{
    for row in rows {
        let failed = row.has_failed();
        left.push_reserved((row.id, row.writer, failed));
    }
}

/// Settles with publishers, and answers whether the close of each was taken.
fn settle_each<T: Drop, R>(taker: &mut Taker<T, R>, tokens: Vec<Closed<T>>) -> bool
    requires { AllByRecursion (λ closed. closed.queue ≡ taker.old.queue) tokens.items }
    ensures same { taker.new ≡ taker.old }
    ensures meets { AllByRecursion (Meets taker.old) tokens.items }
    ensures whole { IsTrue result ↔ AreWhole taker.old tokens.items }
{
    let mut whole = true;
    for closed in tokens {
        match taker.settle(closed) {
            Settled::Whole => (),
            Settled::Beginning => whole = false,
        }
    }
    whole
}
