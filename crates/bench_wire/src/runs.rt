//! The runs: what each of them measures and tells.

use crate::count::Count;
use crate::peak::Peak;
use crate::stream::{Pieces, Stream, append_head};
use std::alloc::Global;
use std::io;
use std::rt::{Clock, Files};
use std::time::Instant;
use zmtp_wire::{Decoder, Limits, WireFault};

/// How often each time is taken. The best is told.
const ROUNDS: u32 = 3;

/// Tells how long the decoder, the pieces alone and a plain copy take, over a text that is in memory.
pub(crate) fn whole<R: Clock + Print + AllocGlobal>(
    rt: &R,
    messages: usize,
    piece: usize,
    bodies: &[usize],
) -> io::Result<()> {
    let stream = Stream::new(rt.alloc(), bodies, messages)?;
    let copy = copy_micros(rt, stream.octets())?;
    let alone = pieces_micros(rt, &stream, messages, piece)?;
    let decoder = decoder_micros(rt, &stream, messages, piece)?;
    let fed = stream.count_of(messages);
    println!(rt;
        "{fed} in pieces of {piece}: decoder {decoder} microseconds, pieces alone {alone}, plain copy {copy}"
    )
}

/// Tells how long the decoder takes, once, and what memory, over a ring that is in memory before.
pub(crate) fn ring<R: Clock + Files + Print + AllocGlobal>(
    rt: &R,
    messages: usize,
    piece: usize,
    bodies: &[usize],
) -> io::Result<()> {
    let stream = Stream::ring(rt.alloc(), bodies, piece)?;
    let before = Peak::now(rt)?;
    let decoder = decode_once(rt, &stream, messages, piece)?;
    let after = Peak::now(rt)?;
    let fed = stream.count_of(messages);
    println!(rt;
        "{fed} in pieces of {piece}: decoder {decoder} microseconds, peak {before} before, {after} after"
    )
}

/// Tells what memory the head of a frame takes that claims a size, with the first octets of its body.
pub(crate) fn claim<R: Files + Print + AllocGlobal>(
    rt: &R,
    size: usize,
    come: usize,
) -> io::Result<()> {
    let mut octets = Vec::with_capacity(rt.alloc(), come.saturating_add(9))?;
    append_head(false, size, &mut octets)?;
    let len = octets.len().saturating_add(come);
    octets.resize(len, b'x')?;
    let before = Peak::now(rt)?;
    let mut decoder = Decoder::new(rt.alloc(), Limits::usual());
    let fed = decoder.feed(octets.as_slice());
    let after = Peak::now(rt)?;
    if let Some(fault) = fed.fault {
        return Err(refused(rt.alloc(), fault));
    }
    println!(rt; "{come} octets of a frame of {size}: peak {before} before, {after} after")
}

/// Reads all pieces. The traffic of each is counted and dropped before the next.
fn decode(alloc: Global, pieces: Pieces<'_>) -> Result<Count, WireFault> {
    let mut decoder = Decoder::new(alloc, Limits::usual());
    let mut count = Count::new();
    for piece in pieces {
        let fed = decoder.feed(piece);
        if let Some(fault) = fed.fault {
            return Err(fault);
        }
        count.add_piece(piece, fed.traffic.as_slice());
    }
    Ok(count)
}

/// The time of reading so many messages once. That all of them came is looked at.
fn decode_once<R: Clock + AllocGlobal>(
    rt: &R,
    stream: &Stream,
    messages: usize,
    piece: usize,
) -> io::Result<u64> {
    let start = Instant::now(rt)?;
    let count = match decode(rt.alloc(), stream.pieces(messages, piece)) {
        Ok(count) => count,
        Err(fault) => return Err(refused(rt.alloc(), fault)),
    };
    let micros = micros_since(rt, start)?;
    if count != stream.count_of(messages) {
        return Err(io::Error::other("other traffic came than was fed"));
    }
    Ok(micros)
}

/// The best time of reading so many messages.
fn decoder_micros<R: Clock + AllocGlobal>(
    rt: &R,
    stream: &Stream,
    messages: usize,
    piece: usize,
) -> io::Result<u64> {
    let mut best = u64::MAX;
    for _ in 0..ROUNDS {
        best = best.min(decode_once(rt, stream, messages, piece)?);
    }
    Ok(best)
}

/// The best time of cutting the pieces, with no decoder.
fn pieces_micros(
    rt: &impl Clock,
    stream: &Stream,
    messages: usize,
    piece: usize,
) -> io::Result<u64> {
    let mut best = u64::MAX;
    for _ in 0..ROUNDS {
        let start = Instant::now(rt)?;
        let mut count = Count::new();
        for part in stream.pieces(messages, piece) {
            count.add_piece(part, &[]);
        }
        best = best.min(micros_since(rt, start)?);
        if count.text != stream.count_of(messages).text {
            return Err(io::Error::other("pieces are missing"));
        }
    }
    Ok(best)
}

/// The best time of copying the octets into memory that was written before.
fn copy_micros<R: Clock + AllocGlobal>(rt: &R, octets: &[u8]) -> io::Result<u64> {
    let mut target = Vec::from_slice(rt.alloc(), octets)?;
    let mut best = u64::MAX;
    for _ in 0..ROUNDS {
        target.clear();
        let start = Instant::now(rt)?;
        target.extend_from_slice(octets)?;
        best = best.min(micros_since(rt, start)?);
    }
    if target.as_slice() != octets {
        return Err(io::Error::other("the copy differs"));
    }
    Ok(best)
}

/// The microseconds since then.
fn micros_since(rt: &impl Clock, start: Instant) -> io::Result<u64> {
    Ok(u64::try_from(start.elapsed(rt)?.as_micros()).unwrap_or(u64::MAX))
}

/// The decoder's fault as an error of the program.
fn refused(alloc: Global, fault: WireFault) -> io::Error {
    match format!(in alloc; "{fault}") {
        Ok(words) => io::Error::other(words.as_str()),
        Err(error) => io::Error::from(error),
    }
}
