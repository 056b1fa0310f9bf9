//! A text, cut into its parts.

ghost use Rattle.std.specs.Prelude.{◌≡◌, ◌≤◌, ◌<◌, ◌++◌, ◌∷◌, ℕ, Bool, List, [], codes, filter, length, IfOk, OnOk};
ghost use Rattle.std.specs.Prelude.{if◌then◌else◌};
ghost use Rattle.std.specs.List.{prefix_len};
ghost use Rattle.sql_cells.specs.Parts.{IsCut, IsJudged, IsParted, IsSplit, IsWhole, closing, does, is_open, is_other};
ghost use Rattle.sql_cells.specs.Parts.{is_solid, last_from, last_solid, part_len, quote_len, thing_len};

use crate::gaps::{begins_with, does, gap_len, is_dotted, line_len, past_gaps};
use interp_core::Completeness;
use listed::Octets;
use sqlite_syntax::statement_len;
use std::alloc::{AllocError, Global};
use std::collections::VecDeque;

/// How long the first part of a text is.
fn part_len(text: &[u8]) -> usize
    ensures value { result ≡ part_len text.now }
    ensures within { result ≤ length text.now }
    ensures moves { 0 < length text.now → 0 < result }
{
    if is_dotted(text) {
        let rest = past_gaps(text);
        text.len() - rest.len() + (1 + line_len(&rest[1..]))
    } else {
        statement_len(text)
    }
}

/// Keeps a part of a text if it does something.
fn keep(alloc: Global, pieces: &mut VecDeque<Octets>, part: &[u8]) -> Result<(), AllocError>
    ensures { OnOk result (pieces.new.items ≡ pieces.old.items ++ filter does (part.now ∷ [])) }
{
    if does(part) {
        pieces.push_back(Octets::new(Vec::from_slice(alloc, part)?))?;
    }
    Ok(())
}

/// The parts of a text that do something: statements, each with its semicolon, and lines that begin with a dot.
pub(crate) fn cut(alloc: Global, text: &[u8]) -> Result<VecDeque<Octets>, AllocError>
    ensures { IfOk result (λ pieces. IsCut text.now pieces.items) }
{
    let mut pieces = VecDeque::new(alloc);
    let mut rest = text;
    'parts: while !rest.is_empty() {
        let (first, more) = rest.split_at(part_len(rest));
        keep(alloc, &mut pieces, first)?;
        rest = more;
    }
    Ok(pieces)
}

/// The last part of a text.
fn last_part(text: &[u8]) -> &[u8]
    ensures { (parts : List (List ℕ)) × IsParted text.now parts × (result.now ≡ last_from [] parts) }
{
    let mut rest = text;
    let mut last: &[u8] = &[];
    'parts: while !rest.is_empty() {
        let (first, more) = rest.split_at(part_len(rest));
        last = first;
        rest = more;
    }
    last
}

/// The octet that closes what an octet opens, or 0 if it opens none.
fn closing(octet: u8) -> u8
    ensures { result ≡ closing octet }
{
    match octet {
        b'\'' | b'"' | b'`' => octet,
        b'[' => b']',
        _ => 0,
    }
}

/// How many octets a text has before this one.
fn len_before(octet: u8, text: &[u8]) -> usize
    ensures value { result ≡ prefix_len (is_other octet) text.now }
    ensures within { result ≤ length text.now }
{
    let mut len = 0;
    while len < text.len() && text[len] != octet {
        len += 1;
    }
    len
}

/// How long the text in quotes is that a text begins with.
fn quote_len(text: &[u8]) -> usize
    requires { 0 < length text.now }
    ensures value { result ≡ quote_len text.now }
    ensures within { result ≤ length text.now }
    ensures moves { 0 < result }
{
    let len = len_before(closing(text[0]), &text[1..]);
    text.len().min(2 + len)
}

/// How long the first thing of a text is: a blank or a comment, a text in quotes, or else one octet.
fn thing_len(text: &[u8]) -> usize
    requires { 0 < length text.now }
    ensures value { result ≡ thing_len text.now }
    ensures within { result ≤ length text.now }
    ensures moves { 0 < result }
{
    let gap = gap_len(text);
    if 0 < gap {
        gap
    } else if closing(text[0]) == 0 {
        1
    } else {
        quote_len(text)
    }
}

/// Whether a thing is a comment that isn't closed.
fn is_open(thing: &[u8]) -> bool
    ensures { result ≡ is_open thing.now }
{
    begins_with(b'/', b'*', thing)
        && !(3 < thing.len() && begins_with(b'*', b'/', &thing[thing.len() - 2..]))
}

/// A thing if it is no blank and no closed comment, else the one before it.
fn solid_or<'a>(thing: &'a [u8], last: &'a [u8]) -> &'a [u8]
    ensures { result.now ≡ (if is_solid thing.now then thing.now else last.now) }
{
    if gap_len(thing) == 0 || is_open(thing) {
        thing
    } else {
        last
    }
}

/// The last thing of a text that is no blank and no closed comment, or a semicolon.
fn last_solid(text: &[u8]) -> &[u8]
    ensures { (things : List (List ℕ)) × IsSplit text.now things × (result.now ≡ last_solid (codes ";") things) }
{
    let mut rest = text;
    let mut last: &[u8] = b";";
    'things: while !rest.is_empty() {
        let (first, more) = rest.split_at(thing_len(rest));
        last = solid_or(first, last);
        rest = more;
    }
    last
}

/// Whether a text ends with a semicolon, and has nothing open.
fn is_whole(text: &[u8]) -> bool
    ensures { IsWhole text.now result }
{
    last_solid(text) == b";".as_slice()
}

/// Whether a text is a whole cell.
pub(crate) fn judge(alloc: Global, text: &str) -> Result<Completeness, AllocError>
    ensures { IfOk result (IsJudged text.now) }
{
    let whole = format!(in alloc; "{text}\n")?;
    Ok(judged(whole.as_bytes()))
}

/// Whether a text that ends with a line feed is a whole cell.
fn judged(text: &[u8]) -> Completeness
    ensures { (parts : List (List ℕ)) × IsParted text.now parts
        × ((whole : Bool) × IsWhole (last_from [] parts) whole
        × (result ≡ (if whole then Completeness.Complete else Completeness.Incomplete))) }
{
    if is_whole(last_part(text)) {
        Completeness::Complete
    } else {
        Completeness::Incomplete
    }
}
