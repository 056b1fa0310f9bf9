//! How a queue is opened.

use iopub_queue::open_queue;
use std::alloc::Global;
use std::test::Fail;

/// How many publishers there are of a queue that is opened with so many, and with so many places;
/// or the number of the fault.
fn opened<R: Copy + Drop>(
    rt: &R,
    alloc: Global,
    count: usize,
    capacity: usize,
) -> Result<usize, u8> {
    match open_queue::<u32, R>(rt, alloc, count, capacity) {
        Ok((publishers, _)) => Ok(publishers.len()),
        Err(fault) => Err(fault.number()),
    }
}

#[test]
fn there_are_few_publishers_or_many(rt: HostRuntime) -> Result<(), Fail> {
    for (count, capacity) in [(1, 1), (2, 65_536), (64, 3)] {
        assert_eq!(rt; opened(&rt, rt.alloc(), count, capacity), Ok(count));
    }
    Ok(())
}

#[test]
fn no_publishers_too_many_and_no_places_are_refused(rt: HostRuntime) -> Result<(), Fail> {
    for (count, capacity, number) in [(0, 8, 60), (65, 8, 60), (1, 0, 61)] {
        assert_eq!(rt; opened(&rt, rt.alloc(), count, capacity), Err(number));
    }
    Ok(())
}
