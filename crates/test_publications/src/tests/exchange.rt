//! Words that publishers hand to one another while both publish: what a word tells of is taken before what was
//! published after it.

ghost use Rattle.std.specs.Prelude.{◌≡◌, IfSome, IsSomeAnd};
ghost use Rattle.crossbeam_queue.specs.Passes.{view, IsPassOf};

use crate::tests::workers::{Entries, take_all};
use crossbeam_queue::protocol::{Outcome, Protocol, Split};
use crossbeam_queue::{Pass, RuledArrayQueue};
use iopub_queue::{Publisher, Word, open_queue};
use std::alloc::{AllocError, Global};
use std::process::Abort;
use std::sync::Wait;
use std::test::Fail;
use std::thread;
use std::thread::Threads;

/// How many items each publisher publishes.
const ROUNDS: u32 = 2_000;

/// Which item it is: its publisher's number, and which of that publisher's items.
type Name = (usize, u32);

/// An item: which it is, and the last item that it was told of by a word, if it was published behind one.
type Said = (Name, Option<Name>);

/// A word, and the last item of its publisher.
type Handed = (Word<Said>, Option<Name>);

/// What a pass of the words knows: a word of the queue that all words are of.
type Known = Option<Word<Said>>;

/// The words that wait to be heard.
type Words = RuledArrayQueue<Handed, Known, OneQueue>;

/// The rule of the words: all are of one queue, of which each pass knows a word.
struct OneQueue;

impl Protocol<Handed, Known> for OneQueue {
    ghost use Rattle.std.specs.Prelude.{◌≡◌, ℕ, ◌⊎◌, Option, None, [], ◌∷◌, All, IsSomeAnd};
    ghost use mathlib.Core.Option.{some};
    ghost use lib.ListN.{get_elem?};
    ghost use Rattle.atomic_table.specs.Seated.{TableId};

    ghost holds = { λ handed known. ((handed ≡ []) × (known ≡ None ∷ []))
        ⊎ ((queue : TableId) × (All (λ one. one.0.queue ≡ queue) handed
        × ((pass : ℕ) (word : Option _) → get_elem? known pass ≡ some word → IsSomeAnd word (λ w. w.queue ≡ queue)))) };

    ghost first = { None };
}

/// The first word is handed over, which names the queue.
struct Naming;

impl Outcome<Handed, Known> for Naming {
    ghost use Rattle.std.specs.Prelude.{◌≡◌, Some};

    ghost then = { λ known handed new. new ≡ Some handed.0 };
}

/// A further word is handed over.
struct Handing;

impl Outcome<Handed, Known> for Handing {
    ghost use Rattle.std.specs.Prelude.{◌≡◌};

    ghost then = { λ known handed new. new ≡ known };
}

/// A word is heard.
struct Hearing;

impl Outcome<Handed, Known> for Hearing {
    ghost use Rattle.std.specs.Prelude.{◌≡◌, IsSomeAnd};

    ghost then = { λ known handed new. (new ≡ known) × IsSomeAnd known (λ word. handed.0.queue ≡ word.queue) };
}

/// One pass becomes two.
struct Sharing;

impl Split<Known> for Sharing {
    ghost left = { λ known. known };

    ghost right = { λ known. known };
}

/// Publishes an item, behind a word where one was heard.
fn say<R: Wait>(publisher: &mut Publisher<Said, R>, name: Name, handed: Option<Handed>)
    requires { IfSome handed (λ heard. heard.0.queue ≡ publisher.old.queue) }
    ensures { publisher.new.queue ≡ publisher.old.queue }
{
    match handed {
        Some((word, heard)) => {
            drop(publisher.publish_after(word, (name, heard)));
        }
        None => {
            drop(publisher.publish((name, None)));
        }
    }
}

/// Publishes the items from one on, each behind a word where one waits, hands a word over after each, and closes.
fn converse<R: Wait + Drop>(
    words: &Words,
    mut pass: Pass<Handed, Known>,
    mut publisher: Publisher<Said, R>,
    first: u32,
)
where
    requires pass { IsPassOf words.now pass }
    requires known { IsSomeAnd (view pass) (λ word. word.queue ≡ publisher.queue) }
{
    let number = publisher.number();
    for round in first..ROUNDS {
        let name = (number, round);
        let handed = words.try_pop_as::<Hearing>(&mut pass);
        say(&mut publisher, name, handed);
        let word = publisher.tell();
        drop(words.try_push_as::<Handing>(&mut pass, (word, Some(name))));
        thread::yield_now();
    }
    drop(publisher.close());
}

/// Two publishers publish in turn, each behind the other's word: the word that the first tells then.
fn begin<R: Wait>(zero: &mut Publisher<Said, R>, one: &mut Publisher<Said, R>) -> Word<Said>
    requires { zero.old.queue ≡ one.old.queue }
    ensures word { result.queue ≡ zero.new.queue }
    ensures zero { zero.new.queue ≡ zero.old.queue }
    ensures one { one.new.queue ≡ one.old.queue }
{
    say(zero, (0, 0), None);
    let word = zero.tell();
    say(one, (1, 0), Some((word, Some((0, 0)))));
    let word = one.tell();
    say(zero, (0, 1), Some((word, Some((1, 0)))));
    zero.tell()
}

/// Two publishers converse: first each in turn behind the other's word, and then at the same time. False if no word
/// could be handed over.
fn both_converse<R>(
    rt: R,
    alloc: Global,
    mut zero: Publisher<Said, R>,
    mut one: Publisher<Said, R>,
) -> Result<bool, AllocError>
where
    R: Abort + Threads + Wait + Copy + Send + Sync + Drop + 'static,
    requires { zero.queue ≡ one.queue }
{
    let (words, mut first) = Words::ruled(alloc, 4)?;
    let words = &words;
    let word = begin(&mut zero, &mut one);
    let Ok(()) = words.try_push_as::<Naming>(&mut first, (word, Some((0, 1)))) else {
        return Ok(false);
    };
    let second = words.another::<Sharing>(&mut first);
    thread::join(
        &rt,
        move ||
            requires { IsPassOf words.now first × IsSomeAnd (view first) (λ word. word.queue ≡ zero.queue) }
        { converse(words, first, zero, 2) },
        move ||
            requires { IsPassOf words.now second × IsSomeAnd (view second) (λ word. word.queue ≡ one.queue) }
        { converse(words, second, one, 1) },
    );
    Ok(true)
}

/// What is taken of two publishers that converse.
fn taken_of_both<R>(rt: R, alloc: Global) -> Result<Entries<Said>, AllocError>
where
    R: Abort + Threads + Wait + Copy + Send + Sync + Drop + 'static,
{
    let Ok((mut publishers, taker)) = open_queue(&rt, alloc, 2, 3) else {
        return Err(AllocError);
    };
    let (Some(one), Some(zero)) = (publishers.pop(), publishers.pop()) else {
        unreachable!();
    };
    drop(publishers);
    let (taken, conversed) = thread::join(
        &rt,
        move || take_all(&rt, alloc, taker),
        move ||
            requires { zero.queue ≡ one.queue }
        { both_converse(rt, alloc, zero, one) },
    );
    match taken {
        Ok((taken, taker)) => {
            drop(taker);
            if conversed? {
                Ok(taken)
            } else {
                Err(AllocError)
            }
        }
        Err(AllocError) => Err(AllocError),
    }
}

/// The last item that was taken of each publisher, if all were taken in the order that they were told of, and in each
/// publisher's order.
fn last_in_order(taken: &[(usize, Option<Said>)]) -> Option<[Option<u32>; 2]> {
    let mut last = [None, None];
    for entry in taken {
        let Some((name, heard)) = entry.1 else {
            continue;
        };
        if let Some((other, round)) = heard {
            if last.get(other).is_none_or(|last| *last < Some(round)) {
                return None;
            }
        }
        if let Some(last) = last.get_mut(name.0) {
            if *last >= Some(name.1) {
                return None;
            }
            *last = Some(name.1);
        }
    }
    Some(last)
}

/// How many items were published behind a word of the other publisher.
fn behind_the_other(taken: &[(usize, Option<Said>)]) -> usize {
    let mut count = 0usize;
    for entry in taken {
        if let Some(((number, _), Some((other, _)))) = entry.1 {
            count = count.saturating_add(usize::from(other != number));
        }
    }
    count
}

#[test]
fn what_is_heard_of_is_taken_first(rt: HostRuntime) -> Result<(), Fail> {
    let taken = taken_of_both(rt, rt.alloc())?;
    let (count, last) = (taken.len(), last_in_order(&taken));
    let crossed = behind_the_other(&taken);
    drop(taken);
    assert!(rt; crossed >= 2, "{crossed} items behind a word of the other");
    assert_eq!(rt; count, 2 * ROUNDS as usize + 2);
    assert_eq!(rt; last, Some([Some(ROUNDS - 1), Some(ROUNDS - 1)]));
    Ok(())
}
