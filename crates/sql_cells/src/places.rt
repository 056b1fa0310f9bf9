//! Where in a statement something is wrong.

ghost use Rattle.std.specs.Prelude.{◌≡◌, ◌≤◌, ◌++◌, flat_map, length, OnOk};
ghost use Rattle.sql_cells.specs.Places.{below, first_line, last_line, line_start, pointed, solid_len};

use crate::gaps::{is_blank, line_len};
use crate::tables::{goes_on, push_printed};
use std::alloc::AllocError;

/// Where the last line of a text begins.
fn line_start(text: &[u8]) -> usize
    ensures value { result ≡ line_start text.now }
    ensures within { result ≤ length text.now }
{
    let mut start = 0;
    for (at, octet) in text.iter().enumerate() {
        if *octet == b'\n' {
            start = at + 1;
        }
    }
    start
}

/// How long a text is without the blanks that it ends with.
pub(crate) fn solid_len(text: &[u8]) -> usize
    ensures value { result ≡ solid_len text.now }
    ensures within { result ≤ length text.now }
{
    let mut len = 0;
    for (at, octet) in text.iter().enumerate() {
        if !is_blank(*octet) {
            len = at + 1;
        }
    }
    len
}

/// The last line of a text.
fn last_line(text: &[u8]) -> &[u8]
    ensures { result.now ≡ last_line text.now }
{
    &text[line_start(text)..]
}

/// The first line of a text.
fn first_line(text: &[u8]) -> &[u8]
    ensures { result.now ≡ first_line text.now }
{
    &text[..line_len(text)]
}

/// Adds what stands below an octet.
fn push_below(words: &mut Vec<u8>, octet: u8) -> Result<(), AllocError>
    ensures { OnOk result (words.new.items ≡ words.old.items ++ below octet) }
{
    if !goes_on(octet) {
        words.push(b' ')?;
    }
    Ok(())
}

/// Adds what stands below a line.
fn push_all_below(words: &mut Vec<u8>, line: &[u8]) -> Result<(), AllocError>
    ensures { OnOk result (words.new.items ≡ words.old.items ++ flat_map below line.now) }
{
    for octet in line {
        push_below(words, *octet)?;
    }
    Ok(())
}

/// Adds the line of a place, and a caret below the place.
pub(crate) fn push_pointed(words: &mut Vec<u8>, text: &[u8], at: usize) -> Result<(), AllocError>
    requires { at ≤ length text.now }
    ensures { OnOk result (words.new.items ≡ words.old.items ++ pointed text.now at) }
{
    let (before, after) = text.split_at(at);
    words.extend_from_slice(b"\n")?;
    push_printed(words, last_line(before))?;
    push_printed(words, first_line(after))?;
    words.extend_from_slice(b"\n")?;
    push_all_below(words, last_line(before))?;
    words.extend_from_slice(b"^")
}
