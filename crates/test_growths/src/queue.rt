//! Calls of the queue and of its core.

use crate::marks::{begin, end, say, say_number};
use iopub_queue::{CoreEvent, CoreFault, CoreState, Settled, Taken, open_queue, run_core};
use std::alloc::{AllocError, Global};
use std::sync::Wait;

/// The core's event of a word.
fn event_of(word: &[u8]) -> CoreEvent<u8> {
    match word {
        [digit, item, ..] => CoreEvent::Publish(usize::from(*digit & 15), *item),
        [digit] => CoreEvent::Close(usize::from(*digit & 15)),
        [] => CoreEvent::Take,
    }
}

/// The core's events of words.
fn events_of(alloc: Global, words: &[Vec<u8>]) -> Result<Vec<CoreEvent<u8>>, AllocError> {
    let mut events = Vec::new(alloc);
    for word in words {
        events.push(event_of(word))?;
    }
    Ok(events)
}

/// Runs the core of a queue of two publishers, and tells what was taken and what waits.
pub(crate) fn core<R: Print + AllocGlobal>(rt: &R, words: &[Vec<u8>]) -> Result<(), AllocError> {
    let events = events_of(rt.alloc(), words)?;
    begin(rt);
    let ran = run_core(rt.alloc(), 2, events);
    end(rt);
    match &ran {
        Ok(state) => tell_state(rt, state),
        Err(fault) => tell_fault(rt, *fault),
    }
    Ok(())
}

/// Tells a fault by its number, and behind it the place of the event that isn't allowed, if there
/// is one.
fn tell_fault<R: Print + AllocGlobal>(rt: &R, fault: CoreFault) {
    say_number(rt, fault.number());
    if let CoreFault::NotAllowed(place) = fault {
        let _ = print!(rt; " {place}");
    }
}

/// Tells what was taken and what waits.
fn tell_state<R: Print + AllocGlobal>(rt: &R, state: &CoreState<u8>) {
    say(rt, "taken");
    tell_entries(rt, state.taken.as_slice());
    say(rt, "waiting");
    tell_entries(rt, state.waiting.as_slice());
}

/// Tells entries.
fn tell_entries<R: Print + AllocGlobal>(rt: &R, entries: &[(usize, Option<u8>)]) {
    for (number, item) in entries {
        tell_entry(rt, *number, *item);
    }
}

/// Tells an entry: its publisher's number, and its item where it is no close.
fn tell_entry<R: Print + AllocGlobal>(rt: &R, number: usize, item: Option<u8>) {
    let _ = match item {
        Some(item) => print!(rt; " {number}{}", char::from(item)),
        None => print!(rt; " {number}"),
    };
}

/// Opens a queue of two publishers, has each publish and close, and tells what is taken and how they are settled.
pub(crate) fn exchange<R: Print + AllocGlobal + Wait + Copy + Drop>(rt: &R) {
    begin(rt);
    let opened = open_queue(rt, rt.alloc(), 2, 8);
    end(rt);
    let (publishers, mut taker) = match opened {
        Ok(opened) => opened,
        Err(fault) => return say_number(rt, fault.number()),
    };
    let mut publishers = publishers.into_iter();
    let (Some(mut zero), Some(mut one)) = (publishers.next(), publishers.next()) else {
        drop(taker);
        drop(publishers);
        return;
    };
    begin(rt);
    let _ = zero.publish(b'a');
    let word = zero.tell();
    taker.learn(word);
    let first = taker.take();
    let word = zero.tell();
    let _ = one.publish_after(word, b'b');
    let (Ok(mut zero), Ok(one)) = (zero.close(), one.close()) else {
        unreachable!();
    };
    let word = zero.word();
    taker.learn(word);
    let rest = [taker.take(), taker.take(), taker.take(), taker.take()];
    let settled = [taker.settle(zero), taker.settle(one)];
    end(rt);
    tell_taken(rt, &first);
    for taken in &rest {
        tell_taken(rt, taken);
    }
    tell_settled(rt, settled);
}

/// Tells what a take gave.
fn tell_taken<R: Print + AllocGlobal>(rt: &R, taken: &Taken<u8>) {
    match taken {
        Taken::Item(number, item) => tell_entry(rt, *number, Some(*item)),
        Taken::Closed(number) => tell_entry(rt, *number, None),
        Taken::Empty => say(rt, "empty"),
        Taken::Complete => say(rt, "complete"),
    }
}

/// Tells how publishers are settled.
fn tell_settled<R: Print + AllocGlobal>(rt: &R, settled: [Settled; 2]) {
    for one in settled {
        say(
            rt,
            match one {
                Settled::Whole => "whole",
                Settled::Beginning => "beginning",
            },
        );
    }
}
