//! Lines that are cases.

use percent_encoding::percent_decode;
use std::alloc::{AllocError, Global};

/// A case in its parts.
#[derive(Clone, Copy)]
pub(crate) struct Case<'l> {
    /// Its word.
    pub(crate) word: &'l str,
    /// Its number, or 0.
    pub(crate) number: u64,
    /// How often something stands in front of its text.
    times: usize,
    /// What that is, as it is spelled.
    front: &'l str,
    /// Its text, as it is spelled.
    text: &'l str,
}

impl<'l> Case<'l> {
    /// The case that a line is, if it is one.
    pub(crate) fn read(line: &'l str) -> Option<Case<'l>> {
        if line.is_empty() || line.starts_with('#') {
            return None;
        }
        let (word, rest) = cut(line);
        if word == "repeat" {
            Some(Case::repeating(rest))
        } else {
            Some(Case::of(0, "", word, rest))
        }
    }

    /// The case that stands behind a number and a text.
    fn repeating(rest: &'l str) -> Case<'l> {
        let (times, rest) = cut(rest);
        let (front, rest) = cut(rest);
        let (word, rest) = cut(rest);
        Case::of(times.parse::<usize>().unwrap_or(0), front, word, rest)
    }

    /// The case of this word, with something in front of its text so many times.
    fn of(times: usize, front: &'l str, word: &'l str, rest: &'l str) -> Case<'l> {
        let (number, text) = match word {
            "complete" | "inspect" | "fault" => cut(rest),
            _ => ("", rest),
        };
        Case {
            word,
            number: number.parse::<u64>().unwrap_or(0),
            times,
            front,
            text,
        }
    }

    /// The octets that its text stands for.
    pub(crate) fn octets(self, alloc: Global) -> Result<Vec<u8>, AllocError> {
        let once = decoded(alloc, self.front)?;
        let repeated = once.repeat(alloc, self.times);
        drop(once);
        let mut octets = repeated?;
        percent_decode(self.text.as_bytes()).append_to(&mut octets)?;
        Ok(octets)
    }
}

/// What stands in front of the first space of a text, and what behind it.
fn cut(text: &str) -> (&str, &str) {
    text.split_once(' ').unwrap_or((text, ""))
}

/// The octets that a text stands for.
fn decoded(alloc: Global, text: &str) -> Result<Vec<u8>, AllocError> {
    let mut octets = Vec::new(alloc);
    percent_decode(text.as_bytes()).append_to(&mut octets)?;
    Ok(octets)
}
