//! Publishers in threads of their own, with the taker beside them.

ghost use Rattle.std.specs.Prelude.{◌≡◌, IfOk};

use crate::tests::workers::{Entries, Item, is_whole, open_three, publish_all, take_all};
use iopub_queue::{Closed, Publisher, Settled};
use std::alloc::{AllocError, Global};
use std::sync::Wait;
use std::test::Fail;
use std::thread;
use std::thread::Threads;

/// Each of three publishers publishes so many items and closes, in a thread of its own: their
/// closing tokens.
fn published<R>(
    rt: R,
    zero: Publisher<Item, R>,
    one: Publisher<Item, R>,
    two: Publisher<Item, R>,
    count: u32,
) -> (Closed<Item>, Closed<Item>, Closed<Item>)
where
    R: Threads + Wait + Copy + Send + Sync + Drop + 'static,
    ensures zero { result.0.queue ≡ zero.queue }
    ensures one { result.1.queue ≡ one.queue }
    ensures two { result.2.queue ≡ two.queue }
{
    let (zero, (one, two)) = thread::join(
        &rt,
        move || publish_all(zero, count),
        move || {
            thread::join(
                &rt,
                move || publish_all(one, count),
                move || publish_all(two, count),
            )
        },
    );
    (zero, one, two)
}

/// Three publishers in threads of their own, each of so many items, through so many places: what is
/// taken beside them, and how each is settled.
fn taken_of_three<R>(
    rt: R,
    alloc: Global,
    capacity: usize,
    count: u32,
) -> Result<(Entries<Item>, [Settled; 3]), AllocError>
where
    R: Threads + Wait + Copy + Send + Sync + Drop + 'static,
{
    let Ok((zero, one, two, taker)) = open_three(&rt, alloc, capacity) else {
        return Err(AllocError);
    };
    let (taken, (zero, one, two)) = thread::join(
        &rt,
        move || take_all(&rt, alloc, taker),
        move || published(rt, zero, one, two, count),
    );
    match taken {
        Ok((taken, mut taker)) => {
            let settled = [taker.settle(zero), taker.settle(one), taker.settle(two)];
            drop(taker);
            Ok((taken, settled))
        }
        Err(AllocError) => {
            drop((zero, one, two));
            Err(AllocError)
        }
    }
}

/// Whether of three publishers in threads all is taken that they published, each in its order, and
/// each is settled as whole.
fn all_is_taken<R>(rt: R, alloc: Global, capacity: usize, count: u32) -> Result<bool, AllocError>
where
    R: Threads + Wait + Copy + Send + Sync + Drop + 'static,
{
    let (taken, settled) = taken_of_three(rt, alloc, capacity, count)?;
    let mut whole = taken.len() == 3 * (count as usize + 1) && settled == [Settled::Whole; 3];
    for number in 0..3 {
        whole = whole && is_whole(&taken, number, count);
    }
    Ok(whole)
}

#[test]
fn many_items_through_few_places_and_many(rt: HostRuntime) -> Result<(), Fail> {
    for (capacity, count) in [
        (1, 1_000),
        (1, 100_000),
        (2, 100_000),
        (7, 100_000),
        (1_024, 100_000),
    ] {
        assert!(rt;
            all_is_taken(rt, rt.alloc(), capacity, count)?,
            "{count} items through {capacity} places"
        );
    }
    Ok(())
}
