//! The queue beside the plain core: the same events give the same entries.

use crate::tests::workers::Entries;
use iopub_queue::{CoreEvent, CoreState, Publisher, Taken, Taker, open_queue, run_core};
use std::alloc::{AllocError, Global};
use std::sync::Wait;
use std::test::Fail;

/// How many orders of events are tried.
const ORDERS: u32 = 200;

/// How many events an order has. The queue has as many places, so that nobody waits.
const EVENTS: u32 = 60;

/// What was done with a queue that is used on one thread.
#[derive(Drop)]
struct Done {
    /// The core's events of that.
    events: Vec<CoreEvent<u32>>,
    /// What the taker took.
    taken: Entries<u32>,
}

impl Done {
    /// One of these publishers publishes an item.
    fn publish<R: Wait>(
        &mut self,
        publishers: &mut [Publisher<u32, R>],
        place: usize,
        item: u32,
    ) -> Result<(), AllocError> {
        if let Some(publisher) = publishers.get_mut(place) {
            drop(publisher.publish(item));
            self.events
                .push(CoreEvent::Publish(publisher.number(), item))?;
        }
        Ok(())
    }

    /// One of these publishers closes.
    fn close<R: Wait + Drop>(
        &mut self,
        publishers: &mut Vec<Publisher<u32, R>>,
        place: usize,
    ) -> Result<(), AllocError> {
        if place < publishers.len() {
            let publisher = publishers.swap_remove(place);
            let number = publisher.number();
            drop(publisher.close());
            self.events.push(CoreEvent::Close(number))?;
        }
        Ok(())
    }

    /// The taker takes.
    fn take<R: Wait>(&mut self, taker: &mut Taker<u32, R>) -> Result<(), AllocError> {
        self.events.push(CoreEvent::Take)?;
        match taker.take() {
            Taken::Item(number, item) => self.taken.push((number, Some(item)))?,
            Taken::Closed(number) => self.taken.push((number, None))?,
            Taken::Empty | Taken::Complete => {}
        }
        Ok(())
    }

    /// The events of the order that begins with a number: of 32 nineteen publish, one closes and twelve take.
    fn use_both<R: Wait + Drop>(
        &mut self,
        publishers: &mut Vec<Publisher<u32, R>>,
        taker: &mut Taker<u32, R>,
        first: u32,
    ) -> Result<(), AllocError> {
        let mut drawn = first;
        for item in 0..EVENTS {
            drawn = next(drawn);
            let place = (drawn >> 24) as usize % publishers.len().max(1);
            match drawn >> 16 & 31 {
                0..=18 => self.publish(publishers, place, item)?,
                19 => self.close(publishers, place)?,
                _ => self.take(taker)?,
            }
        }
        Ok(())
    }

    /// Whether the core took the same, and whether all that waits there is taken now.
    fn is_as<R: Wait>(
        &mut self,
        taker: &mut Taker<u32, R>,
        state: &CoreState<u32>,
    ) -> Result<bool, AllocError> {
        let before = self.taken.len();
        let is_same = self.taken.as_slice() == state.taken.as_slice();
        for _ in 0..=state.waiting.len() {
            self.take(taker)?;
        }
        Ok(is_same && self.taken.get(before..) == Some(state.waiting.as_slice()))
    }

    /// How many entries are taken in the end, if the core of so many publishers takes the same.
    fn entries<R: Wait>(
        &mut self,
        alloc: Global,
        count: usize,
        taker: &mut Taker<u32, R>,
    ) -> Result<Option<usize>, AllocError> {
        let events = std::mem::replace(&mut self.events, Vec::new(alloc));
        let Ok(state) = run_core(alloc, count, events) else {
            return Err(AllocError);
        };
        let is_as = self.is_as(taker, &state);
        drop(state);
        Ok(if is_as? { Some(self.taken.len()) } else { None })
    }
}

/// The next number of a linear congruence.
fn next(drawn: u32) -> u32 {
    drawn.wrapping_mul(1_664_525).wrapping_add(1_013_904_223)
}

/// How many entries are taken of a queue of so many publishers, in the order of events that begins with a number, if
/// the core takes the same.
fn entries_of<R: Wait + Copy + Drop>(
    rt: &R,
    alloc: Global,
    first: u32,
    count: usize,
) -> Result<Option<usize>, AllocError> {
    let Ok((mut publishers, mut taker)) = open_queue(rt, alloc, count, EVENTS as usize) else {
        return Err(AllocError);
    };
    let mut done = Done {
        events: Vec::new(alloc),
        taken: Vec::new(alloc),
    };
    let used = done.use_both(&mut publishers, &mut taker, first);
    drop(publishers);
    let entries = match used {
        Ok(()) => done.entries(alloc, count, &mut taker),
        Err(failed) => Err(failed),
    };
    drop(taker);
    drop(done);
    entries
}

#[test]
fn the_queue_gives_what_the_core_gives(rt: HostRuntime) -> Result<(), Fail> {
    let mut entries = 0usize;
    for first in 0..ORDERS {
        let count = 2 + first as usize % 2;
        let Some(of_order) = entries_of(&rt, rt.alloc(), first, count)? else {
            panic!(rt; "another entry in order {first}");
        };
        entries = entries.saturating_add(of_order);
    }
    assert!(rt;
        entries > 20 * ORDERS as usize,
        "only {entries} entries were compared"
    );
    Ok(())
}
