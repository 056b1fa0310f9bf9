//! The sentences of a text, one after the other.

ghost use Rattle.std.specs.Prelude.{◌≡◌, ◌<◌, [], length};
ghost use Rattle.arith_syntax.specs.Cut.{Cuts, Skips};
ghost use Rattle.arith_syntax.specs.Lexed.{IsReachable};

use crate::fault::ReadFault;
use crate::lexer::next_token;
use crate::token::Placed;
use std::alloc::Global;

/// Where a sentence ends.
#[derive(Clone, Copy)]
pub(crate) struct Cut {
    /// The place of its end.
    pub(crate) end: u64,
    /// The place behind the `;` that ends it; none where the text ends with it.
    pub(crate) behind: Option<usize>,
}

/// Adds the tokens of the sentence at a place that was reached, and tells where it ends.
pub(crate) fn cut_sentence(
    alloc: Global,
    text: &str,
    place: usize,
    tokens: &mut Vec<Placed>,
) -> Result<Cut, ReadFault>
    requires reached { IsReachable text.now place }
    requires none { tokens.old.items ≡ [] }
    ensures { Cuts text.now place result tokens.new.items }
{
    let mut at = place;
    while at < text.len() {
        let next = next_token(alloc, text, at)?;
        at = next.behind;
        if next.placed.token.is_semicolon() {
            let end = next.placed.place;
            drop(next);
            return Ok(Cut {
                end,
                behind: Some(at),
            });
        }
        tokens.push(next.placed)?;
    }
    Ok(Cut {
        end: text.len() as u64,
        behind: None,
    })
}

/// Finds out whether a text is tokens from a place on that was reached.
pub(crate) fn skip(alloc: Global, text: &str, place: usize) -> Result<(), ReadFault>
    requires { IsReachable text.now place }
    ensures { Skips text.now place result }
{
    let mut reached = place;
    while reached < text.len() {
        let next = next_token(alloc, text, reached)?;
        reached = next.behind;
        drop(next);
    }
    Ok(())
}
