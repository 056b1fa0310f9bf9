//! The relay over lists of events: each subscriber's octets.

use crate::tests::steps::{
    ALL, EVERYTHING, Last, Narrow, STREAMS, Step, Takes, add, are_left, events_of, standard,
    writers_that_end,
};
use iopub_relay::{Event, feed_core};
use std::alloc::{AllocError, Global};
use std::test::Fail;

/// Four octets are taken, one a write, and then writes fail.
const FOUR_OCTETS: Takes = Takes {
    width: 1,
    writes: 4,
    last: Last::Fails,
};

/// Lists of events, each with the subscribers that are left behind it and what these got.
const LISTS: [(&[Step], &[(u64, &[u8])]); 9] = [
    // A longer topic matches none.
    (
        &[
            Step::Attach(1, ALL),
            Step::Subscribe(1, b"stream.stdout.x"),
            Step::Message(&[b"stream.stdout", b"x"]),
        ],
        &[(1, b"")],
    ),
    // A message without frames is for nobody.
    (
        &[
            Step::Attach(1, ALL),
            Step::Subscribe(1, b""),
            Step::Message(&[]),
            Step::Message(&[b""]),
        ],
        &[(1, b"\x00\x00")],
    ),
    // One that is there keeps its writer.
    (
        &[
            Step::Attach(1, ALL),
            Step::Subscribe(1, b""),
            Step::Message(&[b"a"]),
            Step::Attach(1, ALL),
            Step::Message(&[b"b"]),
        ],
        &[(1, b"\x00\x01a\x00\x01b")],
    ),
    // One that comes again holds nothing.
    (
        &[
            Step::Attach(1, ALL),
            Step::Subscribe(1, b""),
            Step::Message(&[b"a"]),
            Step::Detach(1),
            Step::Message(&[b"b"]),
            Step::Attach(1, ALL),
            Step::Message(&[b"c"]),
        ],
        &[(1, b"")],
    ),
    // A PONG goes to whom it is for, at its place, whatever it asked for; one whose context is too long to nobody.
    (
        &[
            Step::Attach(1, ALL),
            Step::Attach(2, ALL),
            Step::Subscribe(1, b"a"),
            Step::Message(&[b"a"]),
            Step::Pong(1, b"hi"),
            Step::Pong(1, b"seventeen octets_"),
            Step::Message(&[b"ab"]),
            Step::Pong(2, b""),
        ],
        &[
            (1, b"\x00\x01a\x04\x07\x04PONGhi\x00\x02ab"),
            (2, b"\x04\x05\x04PONG"),
        ],
    ),
    // The standard list, with a PONG for the second subscriber between the second message and the third: 45 octets.
    (
        &[
            Step::Attach(1, ALL),
            Step::Attach(2, ALL),
            Step::Subscribe(1, b""),
            Step::Subscribe(2, b"stream"),
            Step::Subscribe(2, b"stream"),
            Step::Message(&[b"stream.stdout", b"x"]),
            Step::Cancel(2, b"stream"),
            Step::Message(&[b"status", b"y"]),
            Step::Pong(2, b"hi"),
            Step::Message(&[b"stream.stdout", b"z"]),
            Step::Cancel(2, b"stream"),
            Step::Message(&[b"stream.stdout", b"w"]),
        ],
        &[
            (1, EVERYTHING),
            (
                2,
                b"\x01\x0dstream.stdout\x00\x01x\x04\x07\x04PONGhi\x01\x0dstream.stdout\x00\x01z",
            ),
        ],
    ),
    // A writer that fails in a PONG has a beginning of it, and nothing more.
    (
        &[
            Step::Attach(1, FOUR_OCTETS),
            Step::Subscribe(1, b""),
            Step::Pong(1, b"hi"),
            Step::Pong(1, b""),
            Step::Message(&[b"a"]),
        ],
        &[(1, b"\x04\x07\x04P")],
    ),
    // Nobody gets the PONG of one that isn't there.
    (
        &[
            Step::Pong(1, b"hi"),
            Step::Attach(1, ALL),
            Step::Detach(1),
            Step::Pong(1, b"hi"),
            Step::Attach(1, ALL),
            Step::Pong(3, b"hi"),
        ],
        &[(1, b"")],
    ),
    // What is of nobody changes nothing.
    (
        &[
            Step::Subscribe(5, b""),
            Step::Cancel(5, b""),
            Step::Detach(5),
            Step::Attach(9, ALL),
            Step::Attach(3, ALL),
            Step::Cancel(3, b"never"),
            Step::Subscribe(3, b"a"),
            Step::Message(&[b"ab"]),
            Step::Detach(5),
        ],
        &[(3, b"\x00\x02ab"), (9, b"")],
    ),
];

/// Whether these are left behind these steps, each with what it got.
fn leaves(alloc: Global, steps: &[Step<'_>], wanted: &[(u64, &[u8])]) -> Result<bool, AllocError> {
    let left = feed_core(alloc, events_of(alloc, steps)?)?;
    Ok(are_left(&left, wanted))
}

/// Which of these lists is the first that leaves something else, if there is one.
fn first_wrong_list(
    alloc: Global,
    lists: &[(&[Step<'_>], &[(u64, &[u8])])],
) -> Result<Option<usize>, AllocError> {
    for place in 0..lists.len() {
        let (steps, wanted) = lists[place];
        if !leaves(alloc, steps, wanted)? {
            return Ok(Some(place));
        }
    }
    Ok(None)
}

#[test]
fn each_subscriber_gets_what_it_asked_for(rt: HostRuntime) -> Result<(), Fail> {
    assert_eq!(rt; first_wrong_list(rt.alloc(), &LISTS)?, None);
    Ok(())
}

/// Whether behind the standard list the first subscriber got so many octets of what it asked for, and the second all.
fn standard_leaves(
    alloc: Global,
    first: Takes,
    second: Takes,
    octets: usize,
) -> Result<bool, AllocError> {
    let Some(beginning) = EVERYTHING.get(..octets) else {
        return Ok(false);
    };
    let left = feed_core(alloc, standard(alloc, first, second)?)?;
    Ok(are_left(&left, &[(1, beginning), (2, STREAMS)]))
}

/// The first of these writers behind which something else is left, if there is one.
fn first_wrong(alloc: Global, writers: &[(Takes, usize)]) -> Result<Option<Takes>, AllocError> {
    for (first, octets) in writers {
        if !standard_leaves(alloc, *first, ALL, *octets)? {
            return Ok(Some(*first));
        }
    }
    Ok(None)
}

#[test]
fn a_write_that_fails_at_every_place(rt: HostRuntime) -> Result<(), Fail> {
    let writers = writers_that_end(rt.alloc())?;
    let wrong = first_wrong(rt.alloc(), &writers)?;
    assert!(rt; wrong.is_none(), "{wrong:?}");
    Ok(())
}

#[test]
fn writers_that_take_one_octet_or_twenty_or_all(rt: HostRuntime) -> Result<(), Fail> {
    for width in [1, 2, 19, 20, usize::MAX] {
        let both = Takes { width, ..ALL };
        assert!(rt; standard_leaves(rt.alloc(), both, both, 65)?, "{width}");
    }
    Ok(())
}

/// Whether a subscriber gets what is left of its topics, of which one is sixteen mebibytes long and held twice.
fn long_topic_is_held(alloc: Global) -> Result<bool, AllocError> {
    let long = vec![in alloc; b'a'; 16_777_216]?;
    let steps = [
        Step::Attach(1, ALL),
        Step::Subscribe(1, &long),
        Step::Subscribe(1, &long),
        Step::Subscribe(1, b"aa"),
        Step::Cancel(1, &long),
        Step::Message(&[b"aaa"]),
        Step::Cancel(1, b"aa"),
        Step::Message(&[b"aaa"]),
    ];
    leaves(alloc, &steps, &[(1, b"\x00\x03aaa")])
}

/// Whether a message is matched by a topic of 300 octets, and sent, and one of 299 octets isn't.
fn long_frame_is_sent(alloc: Global) -> Result<bool, AllocError> {
    let steps = [
        Step::Attach(1, ALL),
        Step::Subscribe(1, &[7; 300]),
        Step::Message(&[&[7; 299]]),
        Step::Message(&[&[7; 300], b"end"]),
    ];
    let mut text = [7; 314];
    text[..9].copy_from_slice(b"\x03\0\0\0\0\0\0\x01\x2c");
    text[309..].copy_from_slice(b"\x00\x03end");
    leaves(alloc, &steps, &[(1, &text)])
}

#[test]
fn long_topics_and_long_frames(rt: HostRuntime) -> Result<(), Fail> {
    assert!(rt; long_topic_is_held(rt.alloc())?);
    assert!(rt; long_frame_is_sent(rt.alloc())?);
    Ok(())
}

/// A step of a topic that is asked for 100,000 times, and given up as often, with a message before the last time and
/// one after it.
fn step_of_topic(place: u32) -> Step<'static> {
    match place {
        0 => Step::Attach(1, ALL),
        1..=100_000 => Step::Subscribe(1, b"t"),
        200_000 => Step::Message(&[b"t1"]),
        200_002 => Step::Message(&[b"t2"]),
        _ => Step::Cancel(1, b"t"),
    }
}

/// All these steps.
fn steps_of_topic(alloc: Global) -> Result<Vec<Step<'static>>, AllocError> {
    let mut steps = Vec::new(alloc);
    for place in 0..=200_002 {
        steps.push(step_of_topic(place))?;
    }
    Ok(steps)
}

#[test]
fn a_topic_held_often_is_given_up_as_often(rt: HostRuntime) -> Result<(), Fail> {
    let steps = steps_of_topic(rt.alloc())?;
    assert!(rt; leaves(rt.alloc(), &steps, &[(1, b"\x00\x02t1")])?);
    Ok(())
}

/// Events of a subscriber that asks for ten thousand topics, of which the message before the last is one.
fn many_topics(alloc: Global) -> Result<Vec<Event<Narrow>>, AllocError> {
    let mut events = events_of(alloc, &[Step::Attach(1, ALL)])?;
    for number in 0u16..10_000 {
        add(
            alloc,
            &mut events,
            Step::Subscribe(1, &number.to_be_bytes()),
        )?;
    }
    add(alloc, &mut events, Step::Message(&[b"\x27\x0f"]))?;
    add(alloc, &mut events, Step::Message(&[b"\x27\x10"]))?;
    Ok(events)
}

#[test]
fn ten_thousand_topics_of_one(rt: HostRuntime) -> Result<(), Fail> {
    let left = feed_core(rt.alloc(), many_topics(rt.alloc())?)?;
    let is_it = are_left(&left, &[(1, b"\x00\x02\x27\x0f")]);
    drop(left);
    assert!(rt; is_it);
    Ok(())
}
