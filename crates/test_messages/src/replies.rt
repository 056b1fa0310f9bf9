//! The contents of replies.

use crate::contents::{agreed, made, sent};
use crate::spelling::{number_at, take_text, text_at, text_of, texts_from, word_at};
use jmsg_types::{Reply, Shown, Verdict, content_of, content_text};
use listed::{Row, Text};
use std::alloc::{AllocError, Global};

/// The content of the reply that words tell, as JSON and as it is sent.
pub(crate) fn reply(alloc: Global, words: &str) -> Result<String, AllocError> {
    let reply = reply_of(alloc, words)?;
    let as_json = made(alloc, content_of(alloc, &reply));
    let as_sent = sent(alloc, content_text(alloc, &reply));
    drop(reply);
    agreed(alloc, as_json, as_sent)
}

/// The reply that words tell.
fn reply_of(alloc: Global, words: &str) -> Result<Reply, AllocError> {
    match word_at(words, 0) {
        "kernel_info" => kernel_info(alloc, words),
        "execute_ok" => execute_ok(alloc, words),
        "execute_error" => execute_error(alloc, words),
        "error" => error(alloc, words),
        "complete" => complete(alloc, words),
        "inspect" => inspect(alloc, words),
        name => Ok(short_reply(name, word_at(words, 1))),
    }
}

/// The reply of a name that has no text, with what is said of it.
fn short_reply(name: &str, said: &str) -> Reply {
    match name {
        "is_complete" => Reply::IsComplete(verdict(said)),
        "history" => Reply::History,
        "comm_info" => Reply::CommInfo,
        "shutdown" => Reply::Shutdown {
            restart: said == "true",
        },
        "interrupt" => Reply::Interrupt,
        _ => Reply::Inspect(None),
    }
}

/// What is said of a code, in a word.
fn verdict(word: &str) -> Verdict {
    match word {
        "complete" => Verdict::Complete,
        "incomplete" => Verdict::Incomplete,
        _ => Verdict::Invalid,
    }
}

/// What a kernel is: its banner, and its language's ending of files, their type, its name and its version.
fn kernel_info(alloc: Global, words: &str) -> Result<Reply, AllocError> {
    let mut texts = texts_from(alloc, words, 1)?;
    let reply = Reply::KernelInfo {
        banner: take_text(alloc, &mut texts),
        file_extension: take_text(alloc, &mut texts),
        mimetype: take_text(alloc, &mut texts),
        name: take_text(alloc, &mut texts),
        version: take_text(alloc, &mut texts),
    };
    drop(texts);
    Ok(reply)
}

/// A cell that ran to its end: its number, and what user expressions came to.
fn execute_ok(alloc: Global, words: &str) -> Result<Reply, AllocError> {
    let mut values = Vec::new(alloc);
    for word in words.split_whitespace().skip(2) {
        if let Err(refused) = push_value(alloc, &mut values, word) {
            drop(values);
            return Err(refused);
        }
    }
    Ok(Reply::ExecuteOk {
        count: number_at(words, 1),
        values: Row::new(values),
    })
}

/// Puts what a user expression came to behind those before it.
fn push_value(
    alloc: Global,
    values: &mut Vec<(Text, Shown)>,
    word: &str,
) -> Result<(), AllocError> {
    let value = value(alloc, word)?;
    values.push(value)?;
    Ok(())
}

/// A user expression's name, and what it came to: `name=value`, or `name!fault:words`.
fn value(alloc: Global, word: &str) -> Result<(Text, Shown), AllocError> {
    match word.split_once('!') {
        Some((name, fault)) => failed_value(alloc, name, fault),
        None => {
            let (name, value) = word.split_once('=').unwrap_or((word, "''"));
            let name = text_of(alloc, name)?;
            Ok((name, Shown::Text(text_of(alloc, value)?)))
        }
    }
}

/// A user expression's name, and the fault that it came to.
fn failed_value(alloc: Global, name: &str, fault: &str) -> Result<(Text, Shown), AllocError> {
    let (ename, evalue) = fault.split_once(':').unwrap_or((fault, "''"));
    let name = text_of(alloc, name)?;
    let ename = text_of(alloc, ename)?;
    let evalue = text_of(alloc, evalue)?;
    Ok((name, Shown::Fault { ename, evalue }))
}

/// A cell that failed: a fault's name and words, and the cell's number.
fn execute_error(alloc: Global, words: &str) -> Result<Reply, AllocError> {
    let ename = text_at(alloc, words, 1)?;
    let evalue = text_at(alloc, words, 2)?;
    Ok(Reply::ExecuteError {
        ename,
        evalue,
        count: number_at(words, 3),
    })
}

/// Another request that failed: a fault's name and words.
fn error(alloc: Global, words: &str) -> Result<Reply, AllocError> {
    let ename = text_at(alloc, words, 1)?;
    let evalue = text_at(alloc, words, 2)?;
    Ok(Reply::Error { ename, evalue })
}

/// Where a word begins and ends, and how it may go on.
fn complete(alloc: Global, words: &str) -> Result<Reply, AllocError> {
    let matches = texts_from(alloc, words, 3)?;
    Ok(Reply::Complete {
        matches: Row::new(matches),
        start: number_at(words, 1),
        end: number_at(words, 2),
    })
}

/// What was found of a name.
fn inspect(alloc: Global, words: &str) -> Result<Reply, AllocError> {
    Ok(Reply::Inspect(Some(text_at(alloc, words, 1)?)))
}
