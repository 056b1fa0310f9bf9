//! The word at a cursor.

ghost use Rattle.std.specs.Prelude.{◌≡◌, length, take, MatchResult};
ghost use Rattle.std.specs.Str.{chars};
ghost use Rattle.arith_shell.specs.declared.cursor.Word.{Word};
ghost use Rattle.interp_core.specs.declared.fault.InterpFault.TheVariants.{OutOfMemory};
ghost use Rattle.arith_syntax.specs.Parts.{is_word_character};
ghost use Rattle.arith_shell.specs.Words.{run_start, word_around, word_before};

use interp_core::InterpFault;
use listed::Text;
use std::alloc::Global;

/// A word of a text, with the places of its beginning and its end.
#[derive(Drop)]
pub(crate) struct Word {
    /// The word.
    pub(crate) text: Text,
    /// How many code points stand before it.
    pub(crate) start: u64,
    /// How many code points stand before its end.
    pub(crate) end: u64,
}

/// The word that ends at a cursor, which counts code points; one past the text's end is the end.
pub(crate) fn word_before(alloc: Global, text: &str, cursor: u64) -> Result<Word, InterpFault>
    ensures { MatchResult result (λ word. (word.text ≡ word_before (chars text.now) cursor)
        × (word.start ≡ run_start (take cursor (chars text.now)))
        × (word.end ≡ length (take cursor (chars text.now))))
        (λ fault. fault ≡ OutOfMemory) }
{
    let mut word = String::new(alloc);
    let mut start = 0;
    let mut place = 0;
    for c in text.chars() {
        if place == cursor {
            break;
        }
        place += 1;
        if is_word_character(c) {
            word.push(c)?;
        } else {
            word.clear();
            start = place;
        }
    }
    Ok(Word {
        text: Text::new(word),
        start,
        end: place,
    })
}

/// The word that holds or touches a cursor.
pub(crate) fn word_around(alloc: Global, text: &str, cursor: u64) -> Result<Text, InterpFault>
    ensures { MatchResult result (λ word. word ≡ word_around (chars text.now) cursor) (λ fault. fault ≡ OutOfMemory) }
{
    let mut word = String::new(alloc);
    let mut left = cursor;
    for c in text.chars() {
        if is_word_character(c) {
            word.push(c)?;
        } else if left == 0 {
            break;
        } else {
            word.clear();
        }
        left = left.saturating_sub(1);
    }
    Ok(Text::new(word))
}

/// Whether a character is an ASCII letter, a digit or `_`.
fn is_word_character(c: char) -> bool
    ensures { result ≡ is_word_character c }
{
    c.is_ascii_alphanumeric() || c == '_'
}
