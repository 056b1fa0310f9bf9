//! Relays over the queue: the standard list, published and taken.

ghost use Rattle.std.specs.Prelude.{◌≡◌, [], IfOk};

use crate::tests::sinks::publish_each;
use crate::tests::steps::{ALL, EVERYTHING, Narrow, STREAMS, Takes, standard, writers_that_end};
use crate::tests::workers::{ended, open_three};
use iopub_queue::{Publisher, open_queue};
use iopub_relay::{Drain, Event, Relay};
use std::alloc::{AllocError, Global};
use std::sync::Wait;
use std::test::Fail;

/// The entries of the standard list.
const ENTRIES: u64 = 11;

/// The one publisher of a queue, and a relay over it.
fn relay_of_one<R: Copy + Drop>(
    rt: R,
    alloc: Global,
) -> Result<(Publisher<Event<Narrow>, R>, Relay<Narrow, R>), AllocError>
    ensures { IfOk result (λ both. both.0.queue ≡ both.1.taker.queue) }
{
    let Ok((publishers, taker)) = open_queue(&rt, alloc, 1, 1024) else {
        return Err(AllocError);
    };
    let mut publishers = publishers.into_iter();
    let Some(publisher) = publishers.next() else {
        unreachable!();
    };
    drop(publishers);
    Ok((publisher, Relay::new(alloc, taker)))
}

/// The publisher of the standard list, with a first writer that takes so much; and a relay that took nothing of it yet.
fn relay_of_standard<R: Wait + Copy + Drop>(
    rt: R,
    alloc: Global,
    first: Takes,
) -> Result<(Publisher<Event<Narrow>, R>, Relay<Narrow, R>), AllocError>
    ensures { IfOk result (λ both. both.0.queue ≡ both.1.taker.queue) }
{
    let events = standard(alloc, first, ALL)?;
    let Ok((mut publisher, relay)) = relay_of_one(rt, alloc) else {
        drop(events);
        return Err(AllocError);
    };
    drop(publish_each(&mut publisher, events));
    Ok((publisher, relay))
}

/// Whether these are the subscribers that are left: 1, with these octets, and whether it failed; and 2, which got all
/// that it asked for.
fn left_are(left: &[(u64, Narrow, bool)], octets: &[u8], fails: bool) -> bool {
    let [one, two] = left else {
        return false;
    };
    let got = (one.1.octets.as_slice(), two.1.octets.as_slice());
    (one.0, two.0) == (1, 2) && (one.2, two.2) == (fails, false) && got == (octets, STREAMS)
}

/// Whether a relay leaves these subscribers in the end.
fn leaves<R: Drop>(relay: Relay<Narrow, R>, octets: &[u8], fails: bool) -> bool {
    match relay.finish() {
        Ok(left) => left_are(&left, octets, fails),
        Err(relay) => {
            drop(relay);
            false
        }
    }
}

/// How a relay over three publishers is drained, whether the closes of all are taken at its end,
/// and whether its subscribers got all. Two publish nothing and close; the one between them
/// publishes the standard list, and closes or is abandoned.
fn concluded<R: Wait + Copy + Drop>(
    rt: R,
    alloc: Global,
    closes: bool,
) -> Result<(Drain, bool, bool), AllocError> {
    let events = standard(alloc, ALL, ALL)?;
    let Ok((zero, mut one, two, taker)) = open_three(&rt, alloc, 1_024) else {
        drop(events);
        return Err(AllocError);
    };
    let mut relay = Relay::new(alloc, taker);
    drop(publish_each(&mut one, events));
    let tokens = [ended(zero, true), ended(one, closes), ended(two, true)];
    let Ok(tokens) = Vec::from_array(alloc, tokens) else {
        drop(relay);
        return Err(AllocError);
    };
    let drain = relay.drain(ENTRIES + 4);
    let complete = relay.conclude(&rt, tokens);
    Ok((drain, complete, leaves(relay, EVERYTHING, false)))
}

#[test]
fn an_abandoned_publisher_leaves_it_incomplete(rt: HostRuntime) -> Result<(), Fail> {
    let all = concluded(rt, rt.alloc(), true)?;
    let not_all = concluded(rt, rt.alloc(), false)?;
    assert_eq!(rt; all, (Drain::Complete, true, true));
    assert_eq!(rt; not_all, (Drain::Empty, false, true));
    Ok(())
}

/// How drains of a relay over the standard list end, the last two behind its publisher's close.
fn drained<R: Wait + Copy + Drop>(rt: R, alloc: Global) -> Result<[Drain; 6], AllocError> {
    let (publisher, mut relay) = relay_of_standard(rt, alloc, ALL)?;
    let open = [
        relay.drain(0),
        relay.drain(4),
        relay.drain(ENTRIES - 4),
        relay.drain(1),
    ];
    drop(ended(publisher, true));
    let closed = (relay.drain(1), relay.drain(1));
    Ok([open[0], open[1], open[2], open[3], closed.0, closed.1])
}

#[test]
fn a_drain_takes_as_many_as_it_may(rt: HostRuntime) -> Result<(), Fail> {
    assert_eq!(rt;
        drained(rt, rt.alloc())?,
        [
            Drain::More,
            Drain::More,
            Drain::More,
            Drain::Empty,
            Drain::More,
            Drain::Complete
        ]
    );
    Ok(())
}

/// Whether the first subscriber of the standard list gets so many octets of what it asked for, and has failed where
/// that is not all.
fn drained_leaves<R: Wait + Copy + Drop>(
    rt: R,
    alloc: Global,
    first: Takes,
    octets: usize,
) -> Result<bool, AllocError> {
    let Some(beginning) = EVERYTHING.get(..octets) else {
        return Ok(false);
    };
    let (publisher, mut relay) = relay_of_standard(rt, alloc, first)?;
    let _ = relay.drain(ENTRIES);
    drop(publisher);
    let fails = octets < EVERYTHING.len();
    let failed = (relay.failed(1), relay.failed(2));
    let are_left = leaves(relay, beginning, fails);
    Ok(are_left && failed == (fails, false))
}

/// The first of these writers behind which something else is left, if there is one.
fn first_wrong<R: Wait + Copy + Drop>(
    rt: R,
    alloc: Global,
    writers: &[(Takes, usize)],
) -> Result<Option<Takes>, AllocError> {
    for (first, octets) in writers {
        if !drained_leaves(rt, alloc, *first, *octets)? {
            return Ok(Some(*first));
        }
    }
    Ok(None)
}

#[test]
fn a_writer_that_ends_at_every_place_or_never(rt: HostRuntime) -> Result<(), Fail> {
    let writers = writers_that_end(rt.alloc())?;
    let wrong = first_wrong(rt, rt.alloc(), &writers)?;
    assert!(rt; wrong.is_none(), "{wrong:?}");
    Ok(())
}
