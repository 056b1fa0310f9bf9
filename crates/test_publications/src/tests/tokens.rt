//! Three publishers, their closing tokens, a word and the taker, used one after the other.

ghost use Rattle.std.specs.Prelude.{◌≡◌};

use crate::tests::workers::{ended, open_three};
use iopub_queue::{Publisher, Settled, Taken, open_queue};
use std::alloc::{AllocError, Global};
use std::sync::Wait;
use std::test::Fail;
use std::thread;
use std::thread::Threads;

/// What a take gave, as a plain value.
#[derive(Clone, Copy, Debug, PartialEq, Eq)]
enum Given {
    /// An item of the publisher of this number.
    Item(usize, u8),
    /// The close of this number.
    Closed(usize),
    /// Nothing.
    Empty,
    /// That all closes were taken.
    Complete,
}

/// What a take gave, as a plain value.
fn plain(taken: &Taken<u8>) -> Given {
    match taken {
        Taken::Item(number, item) => Given::Item(*number, *item),
        Taken::Closed(number) => Given::Closed(*number),
        Taken::Empty => Given::Empty,
        Taken::Complete => Given::Complete,
    }
}

/// The publisher, after it published an item.
fn published<R: Wait>(mut publisher: Publisher<u8, R>, item: u8) -> Publisher<u8, R>
    ensures { result.queue ≡ publisher.queue }
{
    let _ = publisher.publish(item);
    publisher
}

/// What is taken of three publishers, and how each is settled. The first publishes an item in a
/// thread of its own, and a word of it is learnt. Then the second closes, or is abandoned, and the
/// first and the third close.
fn taken_and_settled<R>(
    rt: R,
    alloc: Global,
    closes: bool,
) -> Result<([Given; 6], [Settled; 3]), AllocError>
where
    R: Threads + Wait + Copy + Send + Sync + Drop + 'static,
{
    let Ok((zero, one, two, mut taker)) = open_three(&rt, alloc, 1_024) else {
        return Err(AllocError);
    };
    let (mut zero, ()) = thread::join(&rt, move || published(zero, b'a'), || ());
    let word = zero.tell();
    taker.learn(word);
    let first = taker.take();
    let one = ended(one, closes);
    let zero = ended(zero, true);
    let two = ended(two, true);
    let rest = [
        taker.take(),
        taker.take(),
        taker.take(),
        taker.take(),
        taker.take(),
    ];
    let settled = [taker.settle(zero), taker.settle(one), taker.settle(two)];
    let [second, third, fourth, fifth, sixth] = &rest;
    let given = [
        plain(&first),
        plain(second),
        plain(third),
        plain(fourth),
        plain(fifth),
        plain(sixth),
    ];
    Ok((given, settled))
}

#[test]
fn all_is_taken_and_settled_of_publishers_that_close(rt: HostRuntime) -> Result<(), Fail> {
    let found = taken_and_settled(rt, rt.alloc(), true)?;
    let given = [
        Given::Item(0, b'a'),
        Given::Closed(1),
        Given::Closed(0),
        Given::Closed(2),
        Given::Complete,
        Given::Complete,
    ];
    assert_eq!(rt; found, (given, [Settled::Whole; 3]));
    Ok(())
}

#[test]
fn a_queue_is_never_complete_if_a_publisher_is_abandoned(rt: HostRuntime) -> Result<(), Fail> {
    let found = taken_and_settled(rt, rt.alloc(), false)?;
    let given = [
        Given::Item(0, b'a'),
        Given::Closed(0),
        Given::Closed(2),
        Given::Empty,
        Given::Empty,
        Given::Empty,
    ];
    let settled = [Settled::Whole, Settled::Beginning, Settled::Whole];
    assert_eq!(rt; found, (given, settled));
    Ok(())
}
