//! How a relay ends: it takes all that publishers which have ended published, and settles with them.

ghost use Rattle.std.specs.Prelude.{◌≡◌, ◌↔◌, ℕ, IsTrue};
ghost use Rattle.std.specs.List.{AllByRecursion};
ghost use Rattle.iopub_queue.specs.Entries.{part_of, StartsWith, CloseIsLast, IsComplete};
ghost use Rattle.iopub_relay.specs.Relay.{Meets, AreWhole, AreOfNumbers, AreAllClosed, TakesMore};
ghost use Rattle.iopub_relay.specs.Relay.{EndsAll, TokenIsTold};

use crate::relay::{Drain, Relay};
use iopub_event::Event;
use iopub_queue::Closed;
use std::sync::Wait;
use zmtp_wire::Outlet;

impl<W: Outlet + Drop, R: Wait> Relay<W, R> {
    /// Learns a word of each of these publishers, takes all that it was told of, and settles with them. Answers whether
    /// the closes of all publishers were taken, these among them. That is so if these are all, and each closed.
    pub fn conclude(&mut self, rt: &R, tokens: Vec<Closed<Event<W>>>) -> bool
        requires { AllByRecursion (λ closed. closed.queue ≡ self.old.taker.queue) tokens.items }
        ensures queue { (self.new.taker.queue ≡ self.old.taker.queue) × (self.new.taker.count ≡ self.old.taker.count) }
        ensures grows { StartsWith self.new.taker.taken self.old.taker.taken }
        ensures meets { AllByRecursion (Meets self.new.taker) tokens.items }
        ensures complete { IsTrue result ↔ IsComplete self.new.taker.count self.new.taker.taken }
        ensures whole { IsTrue result → AreWhole self.new.taker tokens.items }
        ensures last { (number : ℕ) → CloseIsLast (part_of number self.new.taker.taken) }
        ensures numbers { AreOfNumbers self.new.taker.count self.new.taker.taken }
        ensures closed { AreAllClosed self.old.taker.count tokens.items → IsTrue result }
    {
        let mut tokens = tokens;
        learn_all(self, &mut tokens);
        let complete = drain_all(rt, self);
        self.serves_what_it_took();
        let whole = self.settle_all(tokens);
        complete & whole
    }
}

/// Learns a word of each of these publishers.
fn learn_all<W: Outlet, R>(relay: &mut Relay<W, R>, tokens: &mut Vec<Closed<Event<W>>>)
    requires { AllByRecursion (λ closed. closed.queue ≡ relay.old.taker.queue) tokens.old.items }
    ensures tokens { tokens.new.items ≡ tokens.old.items }
    ensures queue { relay.new.taker.queue ≡ relay.old.taker.queue }
    ensures count { relay.new.taker.count ≡ relay.old.taker.count }
    ensures taken { relay.new.taker.taken ≡ relay.old.taker.taken }
    ensures told { AllByRecursion (TokenIsTold relay.new.taker.told) tokens.old.items }
{
    for place in 0..tokens.len() {
        let word = tokens[place].word();
        relay.learn(word);
    }
}

/// Takes until the closes of all publishers were taken, or nothing more is found; answers whether they were.
fn drain_all<W: Outlet + Drop, R: Wait>(rt: &R, relay: &mut Relay<W, R>) -> bool
    ensures takes { TakesMore relay.old.taker relay.new.taker }
    ensures ends { EndsAll result relay.new.taker }
{
    for _ in rt.forever() {
        match relay.drain(u64::MAX) {
            Drain::Complete => return true,
            Drain::Empty => return false,
            Drain::More => (),
        }
    }
    unreachable!()
}
