//! One stored run whose octets come in pieces: cut anywhere, interrupted, and refused at a read. What the whole comes
//! to, `tests/programs/sessions` compares octet by octet.

use arith_shell::ShellArith;
use kernel_replay::{HexFault, ReplayFault, answer_octets, answer_peer, read_octets};
use std::alloc::Global;
use std::io::{self, ErrorKind, Read};
use std::test::Fail;
use zmtp_connection::ConnectionFault;
use zmtp_wire::Counted;

/// The digits of what a DEALER sends that asks for the kernel's info: a greeting, READY and the request.
pub(crate) const DIGITS: &str = concat!(
    "ff00000000000000017f03004e554c4c00000000000000000000000000000000000000000000000000000000000000000000",
    "000000000000000000000000000004290552454144590b536f636b65742d54797065000000064445414c4552084964656e74",
    "6974790000000001093c4944537c4d53473e0100012f7b226d73675f6964223a2261222c226d73675f74797065223a226b65",
    "726e656c5f696e666f5f72657175657374227d01027b7d01027b7d00027b7d",
);

/// How many octets that is.
const SENT: u32 = 181;

/// How long the three lines of its session are: 561 octets are written, 673 published.
const PRINTED: usize = 2490;

/// How octets come in pieces.
#[derive(Clone, Copy, Debug)]
struct Cut {
    /// How many octets come before the cut.
    front: usize,
    /// How many octets a read gives after it.
    width: usize,
    /// How many reads lie between two that are interrupted.
    calm: u32,
    /// The read that fails.
    fails: u32,
}

impl Cut {
    /// Pieces of a width, with so many reads between two that are interrupted.
    fn by(width: usize, calm: u32) -> Cut {
        Cut {
            front: 0,
            width,
            calm,
            fails: u32::MAX,
        }
    }
}

/// Gives its octets in pieces, interrupts reads now and then, and fails at one of them.
#[derive(Clone, Copy)]
struct Pieces<'a> {
    /// What it hasn't given yet.
    rest: &'a [u8],
    /// How it does, with what stands before the cut and the read that fails counted down.
    cut: Cut,
    /// How many reads were made since one was interrupted.
    calls: u32,
}

impl<'a> Pieces<'a> {
    /// These octets, cut so.
    fn of(rest: &'a [u8], cut: Cut) -> Pieces<'a> {
        Pieces {
            rest,
            cut,
            calls: 0,
        }
    }
}

impl<'a> Read for Pieces<'a> {
    fn read(&mut self, buf: &mut [u8]) -> io::Result<usize> {
        self.calls = self.calls.saturating_add(1);
        if self.calls > self.cut.calm {
            self.calls = 0;
            return Err(io::Error::from(ErrorKind::Interrupted));
        }
        self.cut.fails = self.cut.fails.saturating_sub(1);
        if self.cut.fails == 0 {
            self.cut.fails = u32::MAX;
            return Err(io::Error::from(ErrorKind::BrokenPipe));
        }
        let due = if self.cut.front == 0 {
            self.cut.width
        } else {
            self.cut.front
        };
        let count = due.min(self.rest.len()).min(buf.len());
        let (piece, rest) = self.rest.split_at(count);
        buf[..count].copy_from_slice(piece);
        self.rest = rest;
        self.cut.front = self.cut.front.saturating_sub(count);
        Ok(count)
    }
}

/// What comes in pieces.
#[derive(Clone, Copy)]
enum Source {
    /// The octets of a peer.
    Peer,
    /// The text of a replay.
    Text,
}

/// The lines of the session with this peer, or of a replay of this text, under no key, if it has some.
fn lines_of(alloc: Global, source: Source, pieces: Pieces<'_>) -> Option<Vec<u8>> {
    match source {
        Source::Peer => if_any(answered(alloc, pieces)),
        Source::Text => replayed(alloc, pieces),
    }
}

/// The lines that there are, if there are some.
pub(crate) fn if_any(answered: Result<Vec<u8>, ReplayFault>) -> Option<Vec<u8>> {
    match answered {
        Ok(lines) => Some(lines),
        Err(fault) => {
            drop(fault);
            None
        }
    }
}

/// The lines of the session with this peer.
fn answered(alloc: Global, peer: Pieces<'_>) -> Result<Vec<u8>, ReplayFault> {
    let arithmetic = ShellArith::new(alloc);
    answer_peer(alloc, arithmetic, Vec::new(alloc), &mut Counted::new(peer))
}

/// The lines of a replay of this text.
fn replayed(alloc: Global, text: Pieces<'_>) -> Option<Vec<u8>> {
    let octets = spelled(alloc, text)?;
    let lines = answer_octets(alloc, ShellArith::new(alloc), Vec::new(alloc), &octets);
    drop(octets);
    if_any(lines)
}

/// The octets that a text spells.
fn spelled(alloc: Global, text: Pieces<'_>) -> Option<Vec<u8>> {
    let mut reader = text;
    match read_octets(alloc, &mut reader) {
        Ok(octets) => Some(octets),
        Err(HexFault::NotHex | HexFault::Failed) => None,
    }
}

/// Whether pieces come to these lines.
fn come_to(alloc: Global, source: Source, pieces: Pieces<'_>, lines: &[u8]) -> bool {
    let Some(found) = lines_of(alloc, source, pieces) else {
        return false;
    };
    let is_so = found.as_slice() == lines;
    drop(found);
    is_so
}

/// The first cut in front of pieces like these with which octets don't come to these lines, if there is one.
fn unlike(alloc: Global, source: Source, octets: &[u8], cut: Cut, lines: &[u8]) -> Option<Cut> {
    for front in 0..=octets.len() {
        let mut at = cut;
        at.front = front;
        if !come_to(alloc, source, Pieces::of(octets, at), lines) {
            return Some(at);
        }
    }
    None
}

/// The same of a peer, of pieces of each kind.
fn peer_unlike(alloc: Global, sent: &[u8], lines: &[u8]) -> Option<Cut> {
    for width in [usize::MAX, 1, 3, 64, 65] {
        for calm in [u32::MAX, 1, 2, 5] {
            let cut = Cut::by(width, calm);
            if let Some(at) = unlike(alloc, Source::Peer, sent, cut, lines) {
                return Some(at);
            }
        }
    }
    None
}

/// The same of a text.
fn text_unlike(alloc: Global, lines: &[u8]) -> Option<Cut> {
    for (calm, width) in [(u32::MAX, 1), (1, 1), (u32::MAX, 7), (1, 7), (2, 7), (5, 7)] {
        let cut = Cut::by(width, calm);
        if let Some(at) = unlike(alloc, Source::Text, DIGITS.as_bytes(), cut, lines) {
            return Some(at);
        }
    }
    None
}

/// The lines of the whole session.
fn whole(alloc: Global) -> Result<Vec<u8>, Fail> {
    let pieces = Pieces::of(DIGITS.as_bytes(), Cut::by(usize::MAX, u32::MAX));
    let Some(lines) = replayed(alloc, pieces) else {
        return Err(Fail::from("the whole session"));
    };
    if lines.len() == PRINTED {
        return Ok(lines);
    }
    drop(lines);
    Err(Fail::from("the lines of the whole session"))
}

/// What the peer sends.
fn octets(alloc: Global) -> Result<Vec<u8>, Fail> {
    Ok(hex::decode(alloc, DIGITS)?)
}

#[test]
fn a_peer_in_pieces_is_answered_the_same(rt: HostRuntime) -> Result<(), Fail> {
    let sent = octets(rt.alloc())?;
    let lines = whole(rt.alloc())?;
    let found = peer_unlike(rt.alloc(), &sent, &lines);
    drop(lines);
    drop(sent);
    assert!(rt; found.is_none(), "{found:?}");
    Ok(())
}

#[test]
fn a_text_in_pieces_is_replayed_the_same(rt: HostRuntime) -> Result<(), Fail> {
    let lines = whole(rt.alloc())?;
    let found = text_unlike(rt.alloc(), &lines);
    drop(lines);
    assert!(rt; found.is_none(), "{found:?}");
    Ok(())
}

/// Whether a session with a peer whose reads give an octet each ends as this one of them fails.
fn is_refused(alloc: Global, sent: &[u8], fails: u32) -> bool {
    let mut cut = Cut::by(1, u32::MAX);
    cut.fails = fails;
    match answered(alloc, Pieces::of(sent, cut)) {
        Ok(lines) => {
            drop(lines);
            false
        }
        Err(fault) => {
            let is_so = matches!(&fault, ReplayFault::Connection(ConnectionFault::Read));
            drop(fault);
            is_so
        }
    }
}

/// The first read whose failure doesn't end the session, or is told although it isn't made, if there is one.
fn overlooked(alloc: Global, sent: &[u8]) -> Option<u32> {
    // One octet a read, and a last read that finds the end; after that none is made.
    let reads = SENT + 1;
    for fails in 1..=reads + 1 {
        if is_refused(alloc, sent, fails) != (fails <= reads) {
            return Some(fails);
        }
    }
    None
}

#[test]
fn a_read_that_fails_ends_the_session(rt: HostRuntime) -> Result<(), Fail> {
    let sent = octets(rt.alloc())?;
    let found = overlooked(rt.alloc(), &sent);
    drop(sent);
    assert_eq!(rt; found, None);
    Ok(())
}

/// Whether a text whose reads give a digit each has no octets as this one of them fails.
fn is_unread(alloc: Global, fails: u32) -> bool {
    let mut cut = Cut::by(1, u32::MAX);
    cut.fails = fails;
    let mut text = Pieces::of(DIGITS.as_bytes(), cut);
    match read_octets(alloc, &mut text) {
        Ok(octets) => {
            drop(octets);
            false
        }
        Err(HexFault::NotHex) => false,
        Err(HexFault::Failed) => true,
    }
}

#[test]
fn a_text_whose_reading_fails_has_no_octets(rt: HostRuntime) {
    for fails in 1..=2 * SENT + 1 {
        assert!(rt; is_unread(rt.alloc(), fails), "at {fails}");
    }
}
