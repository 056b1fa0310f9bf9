//! Octets as words, and those that have a name.

use crate::spelling::{LONG_RUN, Spelled, add_octets};
use std::alloc::{AllocError, Global};
use std::io;

/// Octets that have a name.
#[derive(Drop)]
struct Named {
    /// The name.
    name: String,
    /// The octets.
    octets: Vec<u8>,
}

/// The names of some octets.
#[derive(Drop)]
pub(crate) struct Names {
    /// What memory is taken from.
    alloc: Global,
    /// The names, in the order in which they were given.
    list: Vec<Named>,
}

impl Names {
    /// No names.
    pub(crate) fn new(alloc: Global) -> Names {
        Names {
            alloc,
            list: Vec::new(alloc),
        }
    }

    /// Gives octets a name: the first word is the name, the others are the octets.
    ///
    /// # Errors
    ///
    /// Where one of the words means none, or memory was refused.
    pub(crate) fn give(&mut self, words: &str) -> io::Result<()> {
        let (name, words) = words.split_once(' ').unwrap_or((words, ""));
        let mut octets = Vec::new(self.alloc);
        for word in words.split_whitespace() {
            self.add(&mut octets, word)?;
        }
        let name = String::from_str(self.alloc, name)?;
        self.list.push(Named { name, octets })?;
        Ok(())
    }

    /// Adds the octets that a word means: those that have this name, or those that it spells.
    ///
    /// # Errors
    ///
    /// Where the word is no name and begins with no octet in digits, or memory was refused.
    pub(crate) fn add(&self, octets: &mut Vec<u8>, word: &str) -> io::Result<()> {
        for named in self.list.as_slice() {
            if named.name.as_str() == word {
                return Ok(octets.extend_from_slice(named.octets.as_slice())?);
            }
        }
        if !word.starts_with(['%', '(']) {
            return Err(io::Error::other("a word that means nothing"));
        }
        Ok(add_octets(self.alloc, word, octets)?)
    }

    /// The name with which octets begin, and those behind it.
    fn split<'o>(&self, octets: &'o [u8]) -> Option<(&str, &'o [u8])> {
        for named in self.list.as_slice() {
            if let Some(behind) = octets.strip_prefix(named.octets.as_slice()) {
                return Some((named.name.as_str(), behind));
            }
        }
        None
    }

    /// Adds octets to a text as words, each behind a space: names where octets have one, and a word for those between.
    pub(crate) fn spell(&self, text: &mut String, octets: &[u8]) -> Result<(), AllocError> {
        let (mut rest, mut count) = (octets, 0usize);
        for _ in 0..octets.len() {
            let (piece, behind) = rest.split_at(count.min(rest.len()));
            if let Some((name, behind)) = self.split(behind) {
                spell_piece(text, piece)?;
                write!(text, " {name}")?;
                (rest, count) = (behind, 0);
            } else {
                count = count.saturating_add(step_of(behind));
            }
        }
        spell_piece(text, rest)
    }
}

/// How many octets are passed over at once: a long run of one octet, or else one octet.
fn step_of(octets: &[u8]) -> usize {
    match octets.chunk_by(|octet, next| octet == next).next() {
        Some(run) if run.len() >= LONG_RUN => run.len(),
        _ => 1,
    }
}

/// Adds octets without a name to a text, as one word behind a space, if there are any.
fn spell_piece(text: &mut String, piece: &[u8]) -> Result<(), AllocError> {
    if piece.is_empty() {
        return Ok(());
    }
    write!(text, " {}", Spelled(piece))
}
