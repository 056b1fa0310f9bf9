//! How octets are spelled, in cases and in answers: a word for each list of them.

use listed::Text;
use percent_encoding::{AsciiSet, CONTROLS, ascii_set, percent_decode, percent_encode};
use std::alloc::{AllocError, Global};
use std::{fmt, str};

/// The signs that don't stand for themselves in words of answers.
const MARKS: AsciiSet = ascii_set!(CONTROLS.add(b' ').add(b'%'));

/// The octets that a text stands for.
pub(crate) fn decoded(alloc: Global, text: &str) -> Result<Vec<u8>, AllocError> {
    let mut octets = Vec::new(alloc);
    percent_decode(text.as_bytes()).append_to(&mut octets)?;
    Ok(octets)
}

/// The word at a place, as it stands; `''` if there is none.
pub(crate) fn word_at(words: &str, place: usize) -> &str {
    for (number, word) in words.split_whitespace().enumerate() {
        if number == place {
            return word;
        }
    }
    "''"
}

/// The octets of the word at a place.
pub(crate) fn octets_at(alloc: Global, words: &str, place: usize) -> Result<Vec<u8>, AllocError> {
    octets_of(alloc, word_at(words, place))
}

/// The octets of a word.
pub(crate) fn octets_of(alloc: Global, word: &str) -> Result<Vec<u8>, AllocError> {
    decoded(alloc, if word == "''" { "" } else { word })
}

/// The octets of each word from a place on.
pub(crate) fn octets_from(
    alloc: Global,
    words: &str,
    place: usize,
) -> Result<Vec<Vec<u8>>, AllocError> {
    let mut all = Vec::new(alloc);
    for word in words.split_whitespace().skip(place) {
        all.push(octets_of(alloc, word)?)?;
    }
    Ok(all)
}

/// The text of the word at a place.
pub(crate) fn text_at(alloc: Global, words: &str, place: usize) -> Result<Text, AllocError> {
    text_of(alloc, word_at(words, place))
}

/// The text of a word.
pub(crate) fn text_of(alloc: Global, word: &str) -> Result<Text, AllocError> {
    let octets = octets_of(alloc, word)?;
    let text = str::from_utf8(&octets).unwrap_or("no text");
    Ok(Text::new(String::from_str(alloc, text)?))
}

/// The text of each word from a place on.
pub(crate) fn texts_from(
    alloc: Global,
    words: &str,
    place: usize,
) -> Result<Vec<Text>, AllocError> {
    let mut all = Vec::new(alloc);
    for word in words.split_whitespace().skip(place) {
        all.push(text_of(alloc, word)?)?;
    }
    Ok(all)
}

/// The first of some texts, which is taken away; an empty one if there is none.
pub(crate) fn take_text(alloc: Global, texts: &mut Vec<Text>) -> Text {
    if texts.is_empty() {
        Text::new(String::new(alloc))
    } else {
        texts.remove(0)
    }
}

/// The number that the word at a place is; 0 if it is none.
pub(crate) fn number_at(words: &str, place: usize) -> u64 {
    word_at(words, place).parse::<u64>().unwrap_or(0)
}

/// A text as answers have it: controls and `%` by two digits.
#[derive(Clone, Copy)]
pub(crate) struct Plain<'a>(pub(crate) &'a str);

impl fmt::Display for Plain<'_> {
    fn fmt<W: fmt::Write>(&self, f: &mut fmt::Formatter<W>) -> fmt::Result {
        for sign in self.0.chars() {
            write_sign(f, sign)?;
        }
        Ok(())
    }
}

/// Writes a sign of a text.
fn write_sign<W: fmt::Write>(f: &mut fmt::Formatter<W>, sign: char) -> fmt::Result {
    if sign.is_ascii_control() || sign == '%' {
        write!(f, "%{:02X}", sign as u32)
    } else {
        f.write_char(sign)
    }
}

/// Octets as a word; `''` is none.
#[derive(Clone, Copy)]
pub(crate) struct Word<'a>(pub(crate) &'a [u8]);

impl fmt::Display for Word<'_> {
    fn fmt<W: fmt::Write>(&self, f: &mut fmt::Formatter<W>) -> fmt::Result {
        if self.0.is_empty() {
            return f.write_str("''");
        }
        write!(f, "{}", percent_encode(self.0, MARKS))
    }
}

/// Frames as words, each behind a space.
#[derive(Clone, Copy)]
pub(crate) struct Words<'a>(pub(crate) &'a [Vec<u8>]);

impl fmt::Display for Words<'_> {
    fn fmt<W: fmt::Write>(&self, f: &mut fmt::Formatter<W>) -> fmt::Result {
        for frame in self.0 {
            write!(f, " {}", Word(frame))?;
        }
        Ok(())
    }
}
