//! How octets are spelled, in cases and in answers: percent-encoded, and in parentheses with how often they stand.

use percent_encoding::{AsciiSet, CONTROLS, ascii_set, percent_decode, percent_encode};
use std::alloc::{AllocError, Global};
use std::fmt;

/// From how many octets on a run of one octet is spelled by its length.
pub(crate) const LONG_RUN: usize = 9;

/// The signs that have a meaning in cases or answers, and so don't stand for themselves.
const MARKS: AsciiSet = ascii_set!(
    CONTROLS
        .add(b' ')
        .add(b'%')
        .add(b'\'')
        .add(b'(')
        .add(b')')
        .add(b'*')
        .add(b';')
        .add(b'=')
        .add(b'[')
        .add(b']')
);

/// The octets that words spell, one list a word.
pub(crate) fn arguments_of(alloc: Global, words: &str) -> Result<Vec<Vec<u8>>, AllocError> {
    let mut arguments = Vec::new(alloc);
    for word in words.split_whitespace() {
        let mut octets = Vec::new(alloc);
        add_octets(alloc, word, &mut octets)?;
        arguments.push(octets)?;
    }
    Ok(arguments)
}

/// Adds the octets that a word spells: parts between parentheses, and none if it is `''`.
pub(crate) fn add_octets(
    alloc: Global,
    word: &str,
    octets: &mut Vec<u8>,
) -> Result<(), AllocError> {
    if word == "''" {
        return Ok(());
    }
    for part in word.split(['(', ')']) {
        add_part(alloc, part, octets)?;
    }
    Ok(())
}

/// Adds the octets of a part, as often as is said behind a `*`.
fn add_part(alloc: Global, part: &str, octets: &mut Vec<u8>) -> Result<(), AllocError> {
    let Some((text, times)) = part.split_once('*') else {
        return percent_decode(part.as_bytes()).append_to(octets);
    };
    let mut once = Vec::new(alloc);
    percent_decode(text.as_bytes()).append_to(&mut once)?;
    add_repeated(alloc, &once, times, octets)
}

/// Adds octets as often as a number says, or a number, `*` and how often that.
fn add_repeated(
    alloc: Global,
    once: &[u8],
    times: &str,
    octets: &mut Vec<u8>,
) -> Result<(), AllocError> {
    let (times, again) = times.split_once('*').unwrap_or((times, "1"));
    let block = once.repeat(alloc, times.parse::<usize>().unwrap_or(1))?;
    for _ in 0..again.parse::<usize>().unwrap_or(1) {
        octets.extend_from_slice(&block)?;
    }
    Ok(())
}

/// Octets as answers spell them, long runs of one octet by its length; `''` is none.
#[derive(Clone, Copy)]
pub(crate) struct Spelled<'a>(pub(crate) &'a [u8]);

impl fmt::Display for Spelled<'_> {
    fn fmt<W: fmt::Write>(&self, f: &mut fmt::Formatter<W>) -> fmt::Result {
        if self.0.is_empty() {
            return f.write_str("''");
        }
        for run in self.0.chunk_by(|octet, next| octet == next) {
            match run {
                [octet, ..] if run.len() >= LONG_RUN => {
                    write!(f, "({}*{})", percent_encode(&[*octet], MARKS), run.len())?;
                }
                _ => write!(f, "{}", percent_encode(run, MARKS))?,
            }
        }
        Ok(())
    }
}
