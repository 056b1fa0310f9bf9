//! The ruled queue, and the steps on it that keep the rule.

ghost use Rattle.std.specs.Prelude.{◌≡◌, ◌<◌, [], IfOk, MatchOption};
ghost use Rattle.crossbeam_queue.specs.Passes.{view, IsSamePass, IsPassOf};
ghost use Rattle.iopub_queue.specs.declared.view.Role.TheVariants.{Publishes, Takes, Tells};
ghost use Rattle.iopub_queue.specs.Entries.{HasNoClose};
ghost use Rattle.iopub_queue.specs.Views.{taking, one_more, newcomer, word_of, learnt, settled_with};
ghost use Rattle.iopub_queue.specs.Steps.{Published, Took, Sees};

use crate::rule::{InOrder, Learning, Opening, Publishing, Settling, Taking, Telling};
use crate::view::View;
use crossbeam_queue::{Pass, RuledArrayQueue};
use std::alloc::{AllocError, Global};
use std::sync::Wait;
use std::thread;

/// An entry: a publisher's number, and an item or its close.
pub(crate) type Entry<T> = (usize, Option<T>);

/// The queue under the rule.
pub(crate) type Line<T> = RuledArrayQueue<Entry<T>, View<T>, InOrder>;

/// What one holder knows of the queue. It has no bytes.
pub(crate) type Seat<T> = Pass<Entry<T>, View<T>>;

/// A queue of this many places, and the taker's seat.
pub(crate) fn open_line<T>(alloc: Global, capacity: usize) -> Result<(Line<T>, Seat<T>), AllocError>
    requires { 0 < capacity }
    ensures { IfOk result (λ made. IsPassOf made.0 made.1 × (view made.1 ≡ taking)) }
{
    prove!(size_of::<Seat<T>>() == 0);
    Line::ruled(alloc, capacity)
}

/// Pushes an entry of the seat's number. If the queue is full it is tried again.
pub(crate) fn push<T, R: Wait>(rt: &R, line: &Line<T>, seat: &mut Seat<T>, entry: Entry<T>)
    requires seat { IsPassOf line.now seat.old }
    requires role { (view seat.old).role ≡ Publishes }
    requires number { entry.0 ≡ (view seat.old).number }
    requires open { HasNoClose (view seat.old).published }
    ensures seat { IsSamePass seat.old seat.new }
    ensures published { Published (view seat.old) entry (view seat.new) }
{
    let mut entry = entry;
    for _ in rt.forever() {
        match line.push_as::<Publishing, R>(rt, seat, entry) {
            Ok(()) => return,
            Err(back) => entry = back,
        }
        thread::yield_now();
    }
    unreachable!()
}

/// Pops the entry that waits first.
pub(crate) fn pop<T, R: Wait>(rt: &R, line: &Line<T>, seat: &mut Seat<T>) -> Option<Entry<T>>
    requires seat { IsPassOf line.now seat.old }
    requires role { (view seat.old).role ≡ Takes }
    ensures seat { IsSamePass seat.old seat.new }
    ensures taken { MatchOption result ((view seat.new ≡ view seat.old) × Sees (view seat.old) [])
        (λ entry. Took (view seat.old) entry (view seat.new)) }
{
    line.pop_as::<Taking, R>(rt, seat)
}

/// What the taker can know at one moment.
pub(crate) fn look<T>(line: &Line<T>, seat: &mut Seat<T>)
    requires seat { IsPassOf line.now seat.old }
    requires role { (view seat.old).role ≡ Takes }
    ensures seat { IsSamePass seat.old seat.new × (view seat.new ≡ view seat.old) }
    ensures sees { (waiting : _) × Sees (view seat.old) waiting }
{
    line.learn_as::<Taking>(seat)
}

/// Splits the next number's seat off the taker's.
pub(crate) fn split_publisher<T>(line: &Line<T>, taker: &mut Seat<T>) -> Seat<T>
    requires seat { IsPassOf line.now taker.old }
    requires role { (view taker.old).role ≡ Takes }
    ensures seat { IsSamePass taker.old taker.new × IsPassOf line.now result }
    ensures taker { view taker.new ≡ one_more (view taker.old) }
    ensures publisher { view result ≡ newcomer (view taker.old) }
{
    line.another::<Opening>(taker)
}

/// Splits a word's seat off.
pub(crate) fn split_word<T>(line: &Line<T>, seat: &mut Seat<T>) -> Seat<T>
    requires seat { IsPassOf line.now seat.old }
    ensures seat { IsSamePass seat.old seat.new × IsPassOf line.now result }
    ensures same { view seat.new ≡ view seat.old }
    ensures word { view result ≡ word_of (view seat.old) }
{
    line.another::<Telling>(seat)
}

/// Takes a word in.
pub(crate) fn join_word<T>(line: &Line<T>, seat: &mut Seat<T>, word: Seat<T>)
    requires seat { IsPassOf line.now seat.old × IsPassOf line.now word }
    requires role { (view word).role ≡ Tells }
    ensures seat { IsSamePass seat.old seat.new }
    ensures learnt { view seat.new ≡ learnt (view seat.old) (view word) }
{
    line.absorb::<Learning>(seat, word)
}

/// Takes a publisher's seat in.
pub(crate) fn join_publisher<T>(line: &Line<T>, taker: &mut Seat<T>, closed: Seat<T>)
    requires seat { IsPassOf line.now taker.old × IsPassOf line.now closed }
    requires roles { ((view taker.old).role ≡ Takes) × ((view closed).role ≡ Publishes) }
    ensures seat { IsSamePass taker.old taker.new }
    ensures settled { view taker.new ≡ settled_with (view taker.old) (view closed) }
{
    line.absorb::<Settling>(taker, closed)
}
