//! Cases of shaking hands, of what a subscriber asks for, and of faults.

use crate::spelling::Spelled;
use std::alloc::{AllocError, Global};
use zmtp_wire::{
    Decoder, Limits, SocketType, WireFault, greeting, pong_text, read_greeting, read_identity,
    read_ping, read_ready, ready_text,
};

/// The faults.
const FAULTS: [WireFault; 12] = [
    WireFault::Signature,
    WireFault::Version,
    WireFault::Mechanism,
    WireFault::Flags,
    WireFault::FrameTooLong,
    WireFault::TooManyFrames,
    WireFault::MessageTooLong,
    WireFault::Command,
    WireFault::Pairing,
    WireFault::PeerError,
    WireFault::Spent,
    WireFault::OutOfMemory,
];

/// Says the name and the words of the fault that has this number.
pub(crate) fn fault(arguments: &[Vec<u8>], said: &mut String) -> Result<(), AllocError> {
    let [number] = arguments else {
        return Ok(());
    };
    for fault in FAULTS {
        if number.as_slice() == [fault.number()].as_slice() {
            write!(said, "{fault:?}: {fault}")?;
        }
    }
    Ok(())
}

/// Says what is made of a peer's greeting, and whether ours is the same.
pub(crate) fn greet(arguments: &[Vec<u8>], said: &mut String) -> Result<(), AllocError> {
    let [octets] = arguments else {
        return Ok(());
    };
    let Some((octets, [])) = octets.split_first_chunk::<64>() else {
        return Ok(());
    };
    if *octets == greeting() {
        said.push_str("ours: ")?;
    }
    write!(said, "{:?}", read_greeting(octets))
}

/// Says the type of a socket, its name, and whether it accepts a peer of another type.
pub(crate) fn pair(arguments: &[Vec<u8>], said: &mut String) -> Result<(), AllocError> {
    let [ours, peer] = arguments else {
        return Ok(());
    };
    let Some(ours) = SocketType::from_name(ours) else {
        return said.push_str("no type");
    };
    let accepts = SocketType::from_name(peer).map(|peer| ours.pairs_with(peer));
    write!(said, "{ours:?} {} {accepts:?}", Spelled(ours.name()))
}

/// Says our READY, and what a peer makes of it.
pub(crate) fn introduce(
    alloc: Global,
    arguments: &[Vec<u8>],
    said: &mut String,
) -> Result<(), AllocError> {
    let [ours, peer] = arguments else {
        return Ok(());
    };
    let Some(ours) = SocketType::from_name(ours) else {
        return Ok(());
    };
    let Ok(text) = ready_text(alloc, ours) else {
        return Err(AllocError);
    };
    write!(said, "{} ", Spelled(&text))?;
    judge_first(alloc, peer, &text, said)
}

/// Says what a socket of ours makes of what comes behind a greeting.
pub(crate) fn judge(
    alloc: Global,
    arguments: &[Vec<u8>],
    said: &mut String,
) -> Result<(), AllocError> {
    match arguments {
        [ours, octets] => judge_first(alloc, ours, octets, said),
        _ => Ok(()),
    }
}

/// Says what a socket of ours makes of the one traffic that octets are: of a READY, of an ERROR, by the identity that
/// it gives, by topics that it subscribes to or gives up, and by the PONG that answers a PING.
fn judge_first(
    alloc: Global,
    ours: &[u8],
    octets: &[u8],
    said: &mut String,
) -> Result<(), AllocError> {
    let fed = Decoder::new(alloc, Limits::usual()).feed(octets);
    let (Some(ours), [first], None) = (
        SocketType::from_name(ours),
        fed.traffic.as_slice(),
        fed.fault,
    ) else {
        return Ok(());
    };
    write!(said, "{:?}", read_ready(first, ours))?;
    if first.is_error() {
        said.push_str(" ERROR")?;
    }
    if let Some(identity) = read_identity(first) {
        write!(said, " identity {}", Spelled(identity))?;
    }
    if let Some(topic) = first.subscribed_topic() {
        write!(said, " subscribes {}", Spelled(topic))?;
    }
    if let Some(topic) = first.cancelled_topic() {
        write!(said, " cancels {}", Spelled(topic))?;
    }
    if let Some(context) = read_ping(first) {
        write!(said, " pong {}", Spelled(pong_text(context).octets()))?;
    }
    Ok(())
}
