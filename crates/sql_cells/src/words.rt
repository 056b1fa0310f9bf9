//! The word at a cursor.

ghost use Rattle.std.specs.Prelude.{◌≡◌, ◌≤◌, length, take, IfOk};
ghost use Rattle.std.specs.List.{prefix_len};
ghost use Rattle.sql_cells.specs.Words.{after, before, is_name, last_word, octets_of, word_around, word_start};

use crate::tables::goes_on;
use listed::Octets;
use std::alloc::{AllocError, Global};

/// Whether an octet may stand in a name that needs no quotes.
fn is_name(octet: u8) -> bool
    ensures { result ≡ is_name octet }
{
    octet.is_ascii_alphanumeric() || octet == b'_' || octet >= 128
}

/// How many octets the first characters of a text have.
fn octets_of(text: &[u8], characters: u64) -> usize
    ensures value { result ≡ octets_of characters text.now }
    ensures within { result ≤ length text.now }
{
    let mut left = characters;
    for (at, octet) in text.iter().enumerate() {
        if !goes_on(*octet) {
            if left == 0 {
                return at;
            }
            left -= 1;
        }
    }
    text.len()
}

/// What stands before a cursor.
pub(crate) fn before(text: &[u8], cursor: u64) -> &[u8]
    ensures { result.now ≡ before cursor text.now }
{
    &text[..octets_of(text, cursor)]
}

/// What stands after a cursor.
fn after(text: &[u8], cursor: u64) -> &[u8]
    ensures { result.now ≡ after cursor text.now }
{
    &text[octets_of(text, cursor)..]
}

/// Where the word begins that a text ends with.
pub(crate) fn word_start(text: &[u8]) -> usize
    ensures value { result ≡ word_start text.now }
    ensures within { result ≤ length text.now }
{
    let mut start = 0;
    for (at, octet) in text.iter().enumerate() {
        if !is_name(*octet) {
            start = at + 1;
        }
    }
    start
}

/// How long the word is that a text begins with.
pub(crate) fn name_len(text: &[u8]) -> usize
    ensures value { result ≡ prefix_len is_name text.now }
    ensures within { result ≤ length text.now }
{
    let mut len = 0;
    while len < text.len() && is_name(text[len]) {
        len += 1;
    }
    len
}

/// The word that a text ends with.
fn last_word(text: &[u8]) -> &[u8]
    ensures { result.now ≡ last_word text.now }
{
    &text[word_start(text)..]
}

/// The word that a text begins with.
fn first_name(text: &[u8]) -> &[u8]
    ensures { result.now ≡ take (prefix_len is_name text.now) text.now }
{
    &text[..name_len(text)]
}

/// The word that holds or touches a cursor.
pub(crate) fn word_around(alloc: Global, text: &[u8], cursor: u64) -> Result<Octets, AllocError>
    ensures { IfOk result (λ word. word ≡ word_around cursor text.now) }
{
    let mut word = Vec::from_slice(alloc, last_word(before(text, cursor)))?;
    word.extend_from_slice(first_name(after(text, cursor)))?;
    Ok(Octets::new(word))
}
