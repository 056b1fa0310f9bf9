//! Sessions whose lines are known: a request that has no signature under a key, and a display with
//! buffers.

use crate::tests::pieces::{DIGITS, if_any};
use arith_shell::ShellArith;
use kernel_replay::answer_octets;
use std::alloc::Global;
use std::test::Fail;
use test_examples::Letters;

/// The digits of what a DEALER sends that has the cell `p` executed: a greeting, READY and the
/// request, without a signature.
const DISPLAYS: &str = concat!(
    "ff00000000000000017f03004e554c4c0000000000000000000000000000000000000000000000000000000000",
    "0000000000000000000000000000000000000004290552454144590b536f636b65742d54797065000000064445",
    "414c4552084964656e746974790000000001093c4944537c4d53473e0100012b7b226d73675f6964223a226122",
    "2c226d73675f74797065223a22657865637574655f72657175657374227d01027b7d01027b7d000c7b22636f64",
    "65223a2270227d",
);

/// What the lines of a session begin with that only shakes hands: the kernel's greeting and READY,
/// 94 octets.
const SHAKEN: &str = concat!(
    "shell ",
    "ff00000000000000007f03014e554c4c0000000000000000000000000000000000000000000000000000000000",
    "00000000000000000000000000000000000000041c0552454144590b536f636b65742d5479706500000006524f",
    "55544552",
    "\niopub ",
);

/// What they end with if only that the kernel starts was published: two parts without members, and
/// the content.
const STARTED: &str = concat!(
    "01027b7d01027b7d001e7b22657865637574696f6e5f7374617465223a227374617274696e67227d",
    "\nend eof\n",
);

/// How long they are then: the lines' words, and two digits for each of 94 octets that are written
/// and 261 that are published.
const LENGTH: usize = 22 + 2 * (94 + 261);

/// The digits of the last frames of what `p` displays, metadata, content and two buffers, and of
/// the first frame of the next message.
const DISPLAYED: &str = concat!(
    "01027b7d01297b2264617461223a7b22746578742f706c61696e223a2270227d2c226d65746164617461223a7b",
    "7d7d010200ff00000106737461747573",
);

/// The lines of a session under a key with a peer whose request has no signature.
fn unsigned_lines(alloc: Global) -> Option<Vec<u8>> {
    let octets = hex::decode(alloc, DIGITS).ok()?;
    let Ok(key) = b"Jefe".to_vec(alloc) else {
        drop(octets);
        return None;
    };
    let lines = answer_octets(alloc, ShellArith::new(alloc), key, &octets);
    drop(octets);
    if_any(lines)
}

/// The lines of a session with a peer that has something displayed.
fn displayed_lines(alloc: Global) -> Option<Vec<u8>> {
    let octets = hex::decode(alloc, DISPLAYS).ok()?;
    let letters = Letters { is_wanting: false };
    let lines = answer_octets(alloc, letters, Vec::new(alloc), &octets);
    drop(octets);
    if_any(lines)
}

#[test]
fn a_request_without_a_signature_is_dropped_under_a_key(rt: HostRuntime) -> Result<(), Fail> {
    let Some(lines) = unsigned_lines(rt.alloc()) else {
        return Err(Fail::from("the lines"));
    };
    let is_shaken = lines.starts_with(SHAKEN.as_bytes());
    let is_started = lines.ends_with(STARTED.as_bytes());
    let length = lines.len();
    drop(lines);
    assert_eq!(rt; (is_shaken, is_started, length), (true, true, LENGTH));
    Ok(())
}

#[test]
fn buffers_of_a_display_are_its_last_frames(rt: HostRuntime) -> Result<(), Fail> {
    let Some(lines) = displayed_lines(rt.alloc()) else {
        return Err(Fail::from("the lines"));
    };
    let displayed = DISPLAYED.as_bytes();
    let is_there = lines
        .windows(displayed.len())
        .any(|window| window == displayed);
    drop(lines);
    assert!(rt; is_there);
    Ok(())
}
