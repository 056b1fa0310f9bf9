//! Calls of a relay: what its subscribers get.

use crate::marks::{begin, end, say, say_number, say_octets};
use crate::steps::{Shelf, events_of};
use iopub_queue::open_queue;
use iopub_relay::{Pumped, Relay, feed_core};
use std::alloc::AllocError;
use std::sync::Wait;

/// Serves a list of events, and tells what is left.
pub(crate) fn list<R: Print + AllocGlobal>(rt: &R, words: &[Vec<u8>]) -> Result<(), AllocError> {
    let events = events_of(rt.alloc(), words)?;
    begin(rt);
    let left = feed_core(rt.alloc(), events);
    end(rt);
    match &left {
        Ok(left) => {
            for (id, shelf) in left {
                tell_left(rt, *id, shelf, false);
            }
        }
        Err(_) => say(rt, "wanting"),
    }
    Ok(())
}

/// Publishes a list of events and pumps each, and tells what each pump did and what is left.
pub(crate) fn pump<R: Print + AllocGlobal + Wait + Copy + Drop>(
    rt: &R,
    words: &[Vec<u8>],
) -> Result<(), AllocError> {
    let alloc = rt.alloc();
    let events = events_of(alloc, words)?;
    let Ok((publishers, taker)) = open_queue(rt, alloc, 1, 1024) else {
        drop(events);
        return Err(AllocError);
    };
    let Some(mut publisher) = publishers.into_iter().next() else {
        drop(taker);
        drop(events);
        return Err(AllocError);
    };
    let mut relay = Relay::new(alloc, taker);
    for event in events {
        let _ = publisher.publish(event);
        begin(rt);
        let pumped = relay.pump();
        end(rt);
        tell_pumped(rt, pumped);
    }
    if let Ok(left) = relay.finish() {
        for (id, shelf, failed) in &left {
            tell_left(rt, *id, shelf, *failed);
        }
    }
    Ok(())
}

/// Tells what a pump did.
fn tell_pumped<R: Print + AllocGlobal>(rt: &R, pumped: Pumped) {
    match pumped {
        Pumped::Did => {}
        Pumped::Closed(_) => say(rt, "closed"),
        Pumped::Empty => say(rt, "empty"),
        Pumped::Complete => say(rt, "complete"),
        Pumped::NoTopic(id) => tell_want(rt, "no topic", id),
        Pumped::NoRoom(id) => tell_want(rt, "no room", id),
    }
}

/// Tells for whom there was no memory.
fn tell_want<R: Print + AllocGlobal>(rt: &R, what: &str, id: u64) {
    say(rt, what);
    say_number(rt, u8::try_from(id).unwrap_or(u8::MAX));
}

/// Tells what a subscriber got that is left, and whether it failed.
fn tell_left<R: Print + AllocGlobal>(rt: &R, id: u64, shelf: &Shelf, failed: bool) {
    tell_want(rt, if failed { "failed" } else { "left" }, id);
    say_octets(rt, shelf.taken());
}
