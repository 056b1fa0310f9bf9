//! Texts cut into tokens, and read as trees.

use arith_syntax::{Parts, Placed, Token, read_statement, tokens};
use std::alloc::{AllocError, Global};

/// Says the tokens of a text, each behind its place, or its fault.
pub(crate) fn cut(alloc: Global, text: &str, said: &mut String) -> Result<(), AllocError> {
    match tokens(alloc, text) {
        Ok(found) => {
            let added = add_tokens(&found, said);
            drop(found);
            added
        }
        Err(fault) => write!(said, "{fault}"),
    }
}

/// Adds tokens.
fn add_tokens(found: &[Placed], said: &mut String) -> Result<(), AllocError> {
    for placed in found {
        add_token(placed.place, &placed.token, said)?;
    }
    Ok(())
}

/// Adds a token behind its place.
fn add_token(place: u64, token: &Token, said: &mut String) -> Result<(), AllocError> {
    match token {
        Token::Name(name) => write!(said, "{place} {}, ", name.as_str()),
        token => write!(said, "{place} {token:?}, "),
    }
}

/// Says the tree of a statement as its parts in a row, or its fault.
pub(crate) fn tree(alloc: Global, statement: &str, said: &mut String) -> Result<(), AllocError> {
    match read_statement(alloc, statement) {
        Ok(parts) => {
            let added = add_parts(alloc, &parts, said);
            drop(parts);
            added
        }
        Err(fault) => write!(said, "{fault}"),
    }
}

/// Adds the parts of a tree.
fn add_parts(alloc: Global, parts: &Parts, said: &mut String) -> Result<(), AllocError> {
    let unpacked = parts.lend().unpacked(alloc)?;
    write!(said, "{unpacked:?}")
}
