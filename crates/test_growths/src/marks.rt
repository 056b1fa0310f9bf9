//! What is printed beside a call. Where a print fails, the line is not what it has to be.

use percent_encoding::{AsciiSet, CONTROLS, ascii_set, percent_encode};
use std::str;

/// The signs that don't stand for themselves in quotes.
const MARKS: AsciiSet = ascii_set!(CONTROLS.add(b'%').add(b'\''));

/// Growths may be refused from here on.
pub(crate) fn begin<R: Print>(rt: &R) {
    let _ = print!(rt; " (");
}

/// Growths aren't refused from here on.
pub(crate) fn end<R: Print>(rt: &R) {
    let _ = print!(rt; ")");
}

/// Prints a word.
pub(crate) fn say<R: Print>(rt: &R, word: &str) {
    let _ = print!(rt; " {word}");
}

/// Prints a fault's number.
pub(crate) fn say_number<R: Print>(rt: &R, number: u8) {
    let _ = print!(rt; " {number}");
}

/// Prints octets, percent-encoded and in quotes.
pub(crate) fn say_octets<R: Print>(rt: &R, octets: &[u8]) {
    let _ = print!(rt; " '{}'", percent_encode(octets, MARKS));
}

/// Prints the octets of each frame.
pub(crate) fn say_frames<R: Print>(rt: &R, frames: &[Vec<u8>]) {
    for frame in frames {
        say_octets(rt, frame);
    }
}

/// The text that a word is, or nothing where there is no such word, or no text.
pub(crate) fn text_at(words: &[Vec<u8>], place: usize) -> &str {
    match words.get(place) {
        Some(word) => str::from_utf8(word).unwrap_or(""),
        None => "",
    }
}
