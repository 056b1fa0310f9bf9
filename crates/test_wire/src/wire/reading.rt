//! Cases of reading: what a decoder says of pieces.

use crate::spelling::Spelled;
use std::alloc::{AllocError, Global};
use std::fmt;
use zmtp_wire::{Decoder, Fed, Limits, Traffic};

/// What became whole in a piece: `M` and the bodies of a message, or `C`, the name and the rest of a command; and the
/// fault behind them.
#[derive(Clone, Copy)]
pub(crate) struct Said<'a>(pub(crate) &'a Fed);

impl fmt::Display for Said<'_> {
    fn fmt<W: fmt::Write>(&self, f: &mut fmt::Formatter<W>) -> fmt::Result {
        for traffic in self.0.traffic.as_slice() {
            match traffic {
                Traffic::Message(message) => write!(f, "M{};", Bodies(message.as_slice()))?,
                Traffic::Command(name, rest) => {
                    write!(
                        f,
                        "C {} {};",
                        Spelled(name.as_slice()),
                        Spelled(rest.as_slice())
                    )?;
                }
            }
        }
        match self.0.fault {
            Some(fault) => write!(f, "fault {fault:?};"),
            None => Ok(()),
        }
    }
}

/// The bodies of a message.
#[derive(Clone, Copy)]
pub(crate) struct Bodies<'a>(pub(crate) &'a [Vec<u8>]);

impl fmt::Display for Bodies<'_> {
    fn fmt<W: fmt::Write>(&self, f: &mut fmt::Formatter<W>) -> fmt::Result {
        for body in self.0 {
            write!(f, " {}", Spelled(body))?;
        }
        Ok(())
    }
}

/// The limits that three octets say: the octets of a frame, the frames of a message and the octets of a message. For
/// all else, as `usual`, the usual ones.
fn limits_of(word: &[u8]) -> Limits {
    match word {
        [frame, frames, message] => Limits {
            frame: usize::from(*frame),
            frames: usize::from(*frames),
            message: usize::from(*message),
        },
        _ => Limits::usual(),
    }
}

/// Says what a fresh decoder with these limits makes of each piece in turn.
pub(crate) fn feed(
    alloc: Global,
    arguments: &[Vec<u8>],
    said: &mut String,
) -> Result<(), AllocError> {
    let [limits, pieces @ ..] = arguments else {
        return Ok(());
    };
    let mut decoder = Decoder::new(alloc, limits_of(limits));
    for piece in pieces {
        let fed = decoder.feed(piece);
        write!(said, "[{}]", Said(&fed))?;
    }
    Ok(())
}

/// What a fresh decoder makes of octets in two pieces.
fn pieces_said(
    alloc: Global,
    limits: Limits,
    front: &[u8],
    rest: &[u8],
) -> Result<String, AllocError> {
    let mut decoder = Decoder::new(alloc, limits);
    let (first, second) = (decoder.feed(front), decoder.feed(rest));
    format!(in alloc; "{}{}", Said(&first), Said(&second))
}

/// What a fresh decoder makes of octets that come one by one.
fn octets_said(alloc: Global, limits: Limits, octets: &[u8]) -> Result<String, AllocError> {
    let mut decoder = Decoder::new(alloc, limits);
    let mut said = String::new(alloc);
    for octet in octets {
        let fed = decoder.feed(&[*octet]);
        write!(said, "{}", Said(&fed))?;
    }
    Ok(said)
}

/// Says what a decoder with these limits makes of octets one by one, and where they are cut in two with another
/// outcome.
pub(crate) fn cuts(
    alloc: Global,
    arguments: &[Vec<u8>],
    said: &mut String,
) -> Result<(), AllocError> {
    let [limits, octets] = arguments else {
        return Ok(());
    };
    let limits = limits_of(limits);
    let wanted = octets_said(alloc, limits, octets)?;
    for at in 0..octets.len() {
        let (front, rest) = octets.split_at(at);
        let found = pieces_said(alloc, limits, front, rest)?;
        if found.as_str() != wanted.as_str() {
            write!(said, "cut at {at} {found} but ")?;
        }
    }
    write!(said, "{} cuts {wanted}", octets.len())
}
