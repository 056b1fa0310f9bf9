//! How the program ends: its exit status, and the line for a person.

ghost use Rattle.std.specs.Prelude.{◌≡◌, ◌≢◌, ◌<◌, ◌≤◌, ◌↔◌, Some, None, IfOk, IfErr, option_map};
ghost use Rattle.std.specs.IoError.{error_kind};
ghost use Rattle.std.specs.Vec.Iter.{into_iter_len};
ghost use Rattle.std.specs.declared.io.ErrorKind.TheVariants.{InvalidData};
ghost use Rattle.arith_cells.specs.declared.status.Status.TheVariants.{Failed, WordsRefused};
ghost use Rattle.arith_cells.specs.Exit.{exit_code, exit_line};

use std::env::Args;
use std::io::{self, ErrorKind};

/// How the program ends.
#[derive(Clone, Copy, Debug, PartialEq, Eq)]
pub enum Status {
    /// Each line was run, and what that prints was printed.
    Done,
    /// No memory was left, a line is no UTF-8, or the input or the output failed.
    Failed,
    /// There are command words, and nothing was read or printed.
    WordsRefused,
}

impl Status {
    /// The exit status of the program.
    pub fn code(self) -> u8
        ensures { result ≡ exit_code self }
    {
        match self {
            Status::Done => 0,
            Status::Failed => 1,
            Status::WordsRefused => 2,
        }
    }

    /// The line for a person on standard error, where there is one.
    pub fn line(self) -> Option<&'static str>
        ensures { option_map (λ line. line.now) result ≡ exit_line self }
    {
        match self {
            Status::Done => None,
            Status::Failed => Some("arith_cells: failed"),
            Status::WordsRefused => Some("usage: arith_cells < CELLS"),
        }
    }
}

/// How the program ends by its command words alone, the first of which is its own name: words that aren't UTF-8 are
/// refused as any others are, and want of memory for them is a failure. Nothing where there are none.
pub fn judge_words(words: io::Result<Args>) -> Option<Status>
    ensures refused { IfOk words (λ words. (result ≡ Some WordsRefused) ↔ (1 < into_iter_len words)) }
    ensures none { IfOk words (λ words. (result ≡ None) ↔ (into_iter_len words ≤ 1)) }
    ensures no_text { IfErr words (λ error. error_kind error ≡ InvalidData → result ≡ Some WordsRefused) }
    ensures failed { IfErr words (λ error. error_kind error ≢ InvalidData → result ≡ Some Failed) }
{
    match words {
        Ok(words) if words.len() > 1 => Some(Status::WordsRefused),
        Ok(_) => None,
        Err(error) if error.kind() == ErrorKind::InvalidData => Some(Status::WordsRefused),
        Err(_) => Some(Status::Failed),
    }
}
