//! From a text to its tokens.

ghost use Rattle.std.specs.Prelude.{◌≡◌, ◌<◌, ◌↔◌, drop, length, IsTrue, IfOk, IfErr};
ghost use Rattle.std.specs.Str.{chars};
ghost use Rattle.arith_syntax.specs.declared.fault.ReadFault.TheVariants.{OutOfMemory};
ghost use Rattle.arith_syntax.specs.Tokens.{FirstCharacterIs, IsWhite, IsDigit, IsWordCharacter};
ghost use Rattle.arith_syntax.specs.Parts.{word_at};
ghost use Rattle.arith_syntax.specs.Lexed.{IsRun, Lexes, BeginsWithToken, IsReachable, ReadsNext};

use crate::constant::constant;
use crate::fault::ReadFault;
use crate::sign::sign;
use crate::spelled::Spelled;
use crate::token::{Placed, Token};
use listed::Text;
use std::alloc::Global;
use std::str;

/// The tokens of a text, each with its place.
///
/// # Errors
///
/// `Syntax` with the place of the first character that begins no token, or that begins a constant that is wrong;
/// `OutOfMemory`. Never `TooDeep`.
pub fn tokens(alloc: Global, text: &str) -> Result<Vec<Placed>, ReadFault>
    ensures { Lexes (chars text.now) result }
{
    let mut found = Vec::new(alloc);
    let mut place = white_size(text.as_bytes());
    while place < text.len() {
        let next = next_token(alloc, text, place)?;
        found.push(next.placed)?;
        place = next.behind;
    }
    Ok(found)
}

/// A token of a text, and where the next one stands.
#[derive(Drop)]
pub(crate) struct Next {
    /// The token with its place.
    pub(crate) placed: Placed,
    /// The place behind it and the white space that follows it.
    pub(crate) behind: usize,
}

/// The token at a place that was reached.
#[inline(always)]
pub(crate) fn next_token(alloc: Global, text: &str, place: usize) -> Result<Next, ReadFault>
    requires inside { place < length text.now }
    requires reached { IsReachable text.now place }
    ensures { ReadsNext text.now place result }
{
    let Some(spelled) = token(alloc, &text[place..])? else {
        return Err(ReadFault::Syntax(place as u64));
    };
    let end = place + spelled.size;
    let white = white_size(&text.as_bytes()[end..]);
    Ok(Next {
        placed: Placed {
            token: spelled.token,
            place: place as u64,
        },
        behind: end + white,
    })
}

/// The token that a text begins with.
#[inline(always)]
fn token(alloc: Global, text: &str) -> Result<Option<Spelled>, ReadFault>
    ensures { BeginsWithToken text.now result }
{
    let size = word_size(text.as_bytes());
    if size == 0 {
        return Ok(sign(text.as_bytes()));
    }
    let word = &text[..size];
    if begins_with_digit(word.as_bytes()) {
        return match constant(word.as_bytes()) {
            Some(value) => Ok(Some(Spelled {
                token: Token::Constant(value),
                size,
            })),
            None => Ok(None),
        };
    }
    let name = name_of(alloc, word)?;
    Ok(Some(Spelled {
        token: Token::Name(name),
        size,
    }))
}

/// The name that a word is.
#[inline(never)]
fn name_of(alloc: Global, word: &str) -> Result<Text, ReadFault>
    ensures name { IfOk result (λ name. name ≡ word.now) }
    ensures memory { IfErr result (λ fault. fault ≡ OutOfMemory) }
{
    let name = String::from_str(alloc, word)?;
    Ok(Text::new(name))
}

/// Whether a text begins with a digit.
fn begins_with_digit(text: &[u8]) -> bool
    ensures { IsTrue result ↔ FirstCharacterIs IsDigit text.now }
{
    match text.first() {
        Some(octet) => octet.is_ascii_digit(),
        None => false,
    }
}

/// How many characters of white space a text begins with.
pub(crate) fn white_size(text: &[u8]) -> usize
    ensures { IsRun IsWhite text.now result }
{
    let mut size = 0;
    while size < text.len() && is_white(text[size]) {
        size += 1;
    }
    size
}

/// How many characters of a word a text begins with.
fn word_size(text: &[u8]) -> usize
    ensures { IsRun IsWordCharacter text.now result }
{
    let mut size = 0;
    while size < text.len() && is_word_character(text[size]) {
        size += 1;
    }
    size
}

/// Whether a character is white space: a space, a tab, a line feed, a vertical tab, a form feed or a carriage return.
fn is_white(octet: u8) -> bool
    ensures { IsTrue result ↔ IsWhite octet }
{
    octet == b' ' || (b'\t' <= octet && octet <= b'\r')
}

/// Whether a character may stand in a word.
fn is_word_character(octet: u8) -> bool
    ensures { IsTrue result ↔ IsWordCharacter octet }
{
    octet.is_ascii_alphanumeric() || octet == b'_'
}

/// The word at a place of a text: the longest run of letters, digits and `_` there, which may be empty.
#[inline(never)]
pub fn word_at(text: &str, place: u64) -> &str
    ensures { result.now ≡ word_at text.now place }
{
    let rest = behind(text.as_bytes(), place);
    match str::from_utf8(&rest[..word_size(rest)]) {
        Ok(word) => word,
        Err(_) => unreachable!(),
    }
}

/// What stands from a place of a text on.
fn behind(text: &[u8], place: u64) -> &[u8]
    ensures { result.now ≡ drop place text.now }
{
    if place < text.len() as u64 {
        &text[place as usize..]
    } else {
        &[]
    }
}
