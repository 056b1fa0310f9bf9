//! What the tests of the queue share: publishers that publish all and close, and a taker that takes until nothing comes
//! any more.

ghost use Rattle.std.specs.Prelude.{◌≡◌, [], IfOk};

use iopub_queue::{Closed, OpenFault, Publisher, Taken, Taker, open_queue};
use std::alloc::{AllocError, Global};
use std::sync::Wait;
use std::thread;

/// An item of the tests: its publisher's number, and which of that publisher's items it is.
pub(crate) type Item = (usize, u32);

/// What was taken: of each entry its publisher's number, and the item if it is no close.
pub(crate) type Entries<T> = Vec<(usize, Option<T>)>;

/// Three publishers and the taker of a queue of so many places.
pub(crate) fn open_three<T: Drop, R: Copy + Drop>(
    rt: &R,
    alloc: Global,
    capacity: usize,
) -> Result<
    (
        Publisher<T, R>,
        Publisher<T, R>,
        Publisher<T, R>,
        Taker<T, R>,
    ),
    OpenFault,
>
    ensures zero { IfOk result (λ opened. opened.0.queue ≡ opened.3.queue) }
    ensures one { IfOk result (λ opened. opened.1.queue ≡ opened.3.queue) }
    ensures two { IfOk result (λ opened. opened.2.queue ≡ opened.3.queue) }
    ensures taken { IfOk result (λ opened. opened.3.taken ≡ []) }
{
    let (publishers, taker) = open_queue(rt, alloc, 3, capacity)?;
    let mut publishers = publishers.into_iter();
    let zero = publishers.next().unwrap();
    let one = publishers.next().unwrap();
    let two = publishers.next().unwrap();
    drop(publishers);
    Ok((zero, one, two, taker))
}

/// The token of a publisher that closes, or is abandoned.
pub(crate) fn ended<T: Drop, R: Wait + Drop>(publisher: Publisher<T, R>, closes: bool) -> Closed<T>
    ensures { result.queue ≡ publisher.queue }
{
    if !closes {
        return publisher.abandon();
    }
    let Ok(closed) = publisher.close() else {
        unreachable!();
    };
    closed
}

/// Publishes so many items, and closes.
pub(crate) fn publish_all<R: Wait + Drop>(
    mut publisher: Publisher<Item, R>,
    count: u32,
) -> Closed<Item>
    ensures { result.queue ≡ publisher.queue }
{
    let number = publisher.number();
    for item in 0..count {
        drop(publisher.publish((number, item)));
    }
    ended(publisher, true)
}

/// Takes until nothing comes any more: what was taken, and the taker.
pub(crate) fn take_all<T: Drop, R: Wait + Drop>(
    rt: &R,
    alloc: Global,
    mut taker: Taker<T, R>,
) -> Result<(Entries<T>, Taker<T, R>), AllocError>
    ensures { IfOk result (λ both. both.1.queue ≡ taker.queue) }
{
    let mut taken = Vec::new(alloc);
    for _ in rt.forever() {
        let entry = match taker.take() {
            Taken::Item(number, item) => (number, Some(item)),
            Taken::Closed(number) => (number, None),
            Taken::Empty => {
                thread::yield_now();
                continue;
            }
            Taken::Complete => return Ok((taken, taker)),
        };
        taken.push(entry)?;
    }
    unreachable!()
}

/// Whether a number's part of a list is its first so many items in their order, and then its close.
pub(crate) fn is_whole(taken: &[(usize, Option<Item>)], number: usize, count: u32) -> bool {
    let mut next = 0;
    let mut closed = false;
    for entry in taken {
        if entry.0 != number {
            continue;
        }
        if closed {
            return false;
        }
        match entry.1 {
            Some(item) => {
                if item != (number, next) || next == u32::MAX {
                    return false;
                }
                next += 1;
            }
            None => closed = true,
        }
    }
    closed && next == count
}
