//! From a text to the trees of its statements.

ghost use Rattle.std.specs.Prelude.{◌≡◌, ◌<◌, Ok, Err, count_by, length, MatchResult};
ghost use Rattle.std.specs.List.{All};
ghost use Rattle.std.specs.Str.{chars};
ghost use Rattle.arith_syntax.specs.Cut.{IsSomeReachable, IsTold, Progress, ReadsOn};
ghost use Rattle.arith_syntax.specs.Lexed.{IsReachable};
ghost use Rattle.arith_syntax.specs.Parts.{IsNamed, tree_of, trees_of};
ghost use Rattle.arith_syntax.specs.Reading.{is_operator, CellMeans, Fails, Means, OrMemory, sentence_of};
ghost use Rattle.arith_syntax.specs.Reading.{StatementMeans, Adds};

use crate::cutting::{cut_sentence, skip};
use crate::fault::ReadFault;
use crate::lexer::{tokens, white_size};
use crate::parser::parse;
use crate::parts::Parts;
use crate::token::Placed;
use crate::trees::Trees;
use std::alloc::Global;

/// The most tokens of a statement that are neither names nor constants.
const MOST_OPERATORS: usize = 200;

/// The trees of a cell's statements, in their order. `;` ends a statement, and an empty one is none.
///
/// # Errors
///
/// The first fault: `Syntax` at a wrong constant or a character that begins no token, anywhere in the cell; then,
/// statement by statement, `TooDeep` where it has more than 200 tokens that are neither names nor constants, and
/// `Syntax` at the first token with which no statement goes on, its end among them. `OutOfMemory` where none was left.
pub fn read_cell(alloc: Global, text: &str) -> Result<Trees, ReadFault>
    ensures { MatchResult result (λ trees. CellMeans (chars text.now) (Ok (trees_of text.now trees)))
        (OrMemory (λ fault. CellMeans (chars text.now) (Err fault))) }
{
    let mut tokens = Vec::new(alloc);
    let mut trees = Trees::new(alloc);
    let mut place = white_size(text.as_bytes());
    while place < text.len() {
        match read_sentence(alloc, text, place, &mut tokens, &mut trees)? {
            Some(next) => place = next,
            None => return Ok(trees),
        }
    }
    Ok(trees)
}

/// Reads the sentence at a place that was reached, and tells where the next one may be. `tokens` holds any.
fn read_sentence(
    alloc: Global,
    text: &str,
    place: usize,
    tokens: &mut Vec<Placed>,
    trees: &mut Trees,
) -> Result<Option<usize>, ReadFault>
    requires { Progress text.now place (trees_of text.now trees.old) }
    ensures { ReadsOn text.now place result (trees_of text.now trees.new) }
{
    tokens.clear();
    let cut = cut_sentence(alloc, text, place, tokens)?;
    match add(alloc, text, trees, tokens.as_slice(), cut.end) {
        Ok(()) => Ok(cut.behind),
        Err(fault) => Err(first_fault(alloc, text, cut.behind, fault)),
    }
}

/// The first fault of a text in which a sentence has one: a wrong token behind that comes before it.
fn first_fault(alloc: Global, text: &str, behind: Option<usize>, fault: ReadFault) -> ReadFault
    requires { IsSomeReachable text.now behind }
    ensures { IsTold text.now behind fault result }
{
    match behind {
        Some(place) => match skip(alloc, text, place) {
            Ok(()) => fault,
            Err(wrong) => wrong,
        },
        None => fault,
    }
}

/// The tree of a text that is one statement, as its parts: `;` is a sign that no rule of the grammar uses.
///
/// # Errors
///
/// As of [`read_cell`]; a text without a token is `Syntax` at its end.
pub fn read_statement(alloc: Global, text: &str) -> Result<Parts, ReadFault>
    ensures { MatchResult result (λ parts. StatementMeans (chars text.now) (Ok (tree_of text.now parts)))
        (OrMemory (λ fault. StatementMeans (chars text.now) (Err fault))) }
{
    let placed = tokens(alloc, text)?;
    statement(alloc, text, placed.as_slice(), text.len() as u64)
}

/// One more tree, unless the sentence is empty.
fn add(
    alloc: Global,
    text: &str,
    trees: &mut Trees,
    tokens: &[Placed],
    end: u64,
) -> Result<(), ReadFault>
    requires { All (IsNamed text.now) tokens.now }
    ensures { MatchResult result
        (λ _. Adds (sentence_of tokens.now end) (trees_of text.now trees.old)
        (trees_of text.now trees.new))
        (OrMemory (Fails (sentence_of tokens.now end))) }
{
    if tokens.is_empty() {
        return Ok(());
    }
    let parts = statement(alloc, text, tokens, end)?;
    trees.push(&parts)?;
    Ok(())
}

/// The tree of a statement's tokens.
fn statement(alloc: Global, text: &str, tokens: &[Placed], end: u64) -> Result<Parts, ReadFault>
    requires { All (IsNamed text.now) tokens.now }
    ensures { MatchResult result (λ parts. Means (sentence_of tokens.now end) (Ok (tree_of text.now parts)))
        (OrMemory (λ fault. Means (sentence_of tokens.now end) (Err fault))) }
{
    if operator_count(tokens) > MOST_OPERATORS {
        Err(ReadFault::TooDeep)
    } else {
        parse(alloc, text, tokens, end)
    }
}

/// How many tokens are neither names nor constants.
fn operator_count(tokens: &[Placed]) -> usize
    ensures { result ≡ count_by (λ (p : Placed). is_operator p.token) tokens.now }
{
    tokens
        .iter()
        .filter(|placed| placed.token.is_operator())
        .count()
}
