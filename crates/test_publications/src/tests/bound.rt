//! A full queue holds a publisher up.

use iopub_queue::{Publisher, Taken, Taker, open_queue};
use std::alloc::{AllocError, Global};
use std::sync::Wait;
use std::sync::atomic::{AtomicBool, Ordering};
use std::test::Fail;
use std::thread;
use std::thread::Threads;

/// Publishes two items and then raises a flag.
fn publish_two<R: Wait + Drop>(mut publisher: Publisher<u32, R>, raised: &AtomicBool) {
    drop(publisher.publish(1));
    drop(publisher.publish(2));
    raised.store(true, Ordering::SeqCst);
}

/// Whether a flag is raised in so many turns of the other threads.
fn is_raised(raised: &AtomicBool, turns: u32) -> bool {
    for _ in 0..turns {
        if raised.load(Ordering::SeqCst) {
            return true;
        }
        thread::yield_now();
    }
    false
}

/// The item that a take gives of publisher 0.
fn item<R: Wait>(taker: &mut Taker<u32, R>) -> Option<u32> {
    match taker.take() {
        Taken::Item(0, item) => Some(item),
        Taken::Item(..) | Taken::Closed(_) | Taken::Empty | Taken::Complete => None,
    }
}

/// Takes until there is an item.
fn first_item<R: Wait>(rt: &R, taker: &mut Taker<u32, R>) -> u32 {
    for _ in rt.forever() {
        if let Some(item) = item(taker) {
            return item;
        }
        thread::yield_now();
    }
    unreachable!()
}

/// What is seen beside a publisher of two items: whether the flag is raised before one of them is taken, and after; and
/// what is taken.
fn seen<R: Wait + Drop>(
    rt: &R,
    mut taker: Taker<u32, R>,
    raised: &AtomicBool,
) -> ([bool; 2], [Option<u32>; 3]) {
    let before = is_raised(raised, 10_000);
    let first = first_item(rt, &mut taker);
    let after = is_raised(raised, 10_000_000);
    let rest = (item(&mut taker), item(&mut taker));
    ([before, after], [Some(first), rest.0, rest.1])
}

/// What is seen of a queue of one place, to which a thread publishes two items.
fn seen_of_one_place<R>(rt: R, alloc: Global) -> Result<([bool; 2], [Option<u32>; 3]), AllocError>
where
    R: Threads + Wait + Copy + Send + Sync + Drop + 'static,
{
    let Ok((mut publishers, taker)) = open_queue(&rt, alloc, 1, 1) else {
        return Err(AllocError);
    };
    let Some(publisher) = publishers.pop() else {
        drop(taker);
        drop(publishers);
        return Err(AllocError);
    };
    drop(publishers);
    let flag = AtomicBool::new(false);
    let raised = &flag;
    let (seen, _) = thread::join(
        &rt,
        move || seen(&rt, taker, raised),
        move || publish_two(publisher, raised),
    );
    Ok(seen)
}

#[test]
fn a_full_queue_holds_its_publisher_up(rt: HostRuntime) -> Result<(), Fail> {
    assert_eq!(rt;
        seen_of_one_place(rt, rt.alloc())?,
        ([false, true], [Some(1), Some(2), None])
    );
    Ok(())
}
