//! The types, topics, contents and buffers of publications.

use crate::contents::{agreed, made, sent};
use crate::spelling::{Words, number_at, octets_from, text_at, word_at};
use jmsg_types::{
    Publication, State, buffers_of, content_of_publication, content_text_of_publication, topic_of,
    type_of,
};
use listed::Frames;
use std::alloc::{AllocError, Global};

/// The type and the topic of the publication that words tell, its content as JSON and as it is sent, and its buffers as
/// they are lent and as they are given back.
pub(crate) fn publication(alloc: Global, words: &str) -> Result<String, AllocError> {
    let publication = publication_of(alloc, words)?;
    let (its_type, its_topic) = (type_of(&publication), topic_of(&publication));
    let as_json = made(alloc, content_of_publication(alloc, &publication));
    let as_sent = sent(alloc, content_text_of_publication(alloc, &publication));
    let content = agreed(alloc, as_json, as_sent);
    let buffers = buffers_told(alloc, publication);
    all_told(alloc, its_type, its_topic, content, buffers)
}

/// A publication's type, topic, content and buffers.
fn all_told(
    alloc: Global,
    its_type: &str,
    its_topic: &str,
    content: Result<String, AllocError>,
    buffers: Result<String, AllocError>,
) -> Result<String, AllocError> {
    let content = content?;
    let buffers = buffers?;
    format!(in alloc; "{its_type} {its_topic} {content}{buffers}")
}

/// The buffers of a publication, each behind a space.
fn buffers_told(alloc: Global, publication: Publication) -> Result<String, AllocError> {
    let lent = format!(in alloc; "{}", Words(buffers_of(&publication)));
    let frames = publication.into_buffers(alloc);
    let given = format!(in alloc; "{}", Words(frames.as_slice()));
    drop(frames);
    agreed(alloc, lent, given)
}

/// The publication that words tell.
fn publication_of(alloc: Global, words: &str) -> Result<Publication, AllocError> {
    match word_at(words, 0) {
        "execute_input" => execute_input(alloc, words),
        "execute_result" => execute_result(alloc, words),
        "display" => display(alloc, words),
        "html" => display_html(alloc, words),
        "error" => error(alloc, words),
        "stdout" => stream(alloc, false, words),
        "stderr" => stream(alloc, true, words),
        "comm_close" => comm_close(alloc, words),
        _ => Ok(Publication::Status(state(word_at(words, 1)))),
    }
}

/// The kernel's state, in a word.
fn state(word: &str) -> State {
    match word {
        "starting" => State::Starting,
        "busy" => State::Busy,
        _ => State::Idle,
    }
}

/// A code that runs, and its number.
fn execute_input(alloc: Global, words: &str) -> Result<Publication, AllocError> {
    let code = text_at(alloc, words, 1)?;
    Ok(Publication::ExecuteInput {
        code,
        count: number_at(words, 2),
    })
}

/// A cell's value, and its number.
fn execute_result(alloc: Global, words: &str) -> Result<Publication, AllocError> {
    let text = text_at(alloc, words, 1)?;
    Ok(Publication::ExecuteResult {
        text,
        count: number_at(words, 2),
    })
}

/// A text that is displayed, and its buffers.
fn display(alloc: Global, words: &str) -> Result<Publication, AllocError> {
    let text = text_at(alloc, words, 1)?;
    let buffers = octets_from(alloc, words, 2)?;
    Ok(Publication::Display {
        text,
        buffers: Frames::new(buffers),
    })
}

/// A text that is displayed, and its HTML.
fn display_html(alloc: Global, words: &str) -> Result<Publication, AllocError> {
    let text = text_at(alloc, words, 1)?;
    let html = text_at(alloc, words, 2)?;
    Ok(Publication::DisplayHtml { text, html })
}

/// A fault's name and words.
fn error(alloc: Global, words: &str) -> Result<Publication, AllocError> {
    let ename = text_at(alloc, words, 1)?;
    let evalue = text_at(alloc, words, 2)?;
    Ok(Publication::Error { ename, evalue })
}

/// What was written to a stream.
fn stream(alloc: Global, err: bool, words: &str) -> Result<Publication, AllocError> {
    let text = text_at(alloc, words, 1)?;
    Ok(Publication::Stream { err, text })
}

/// A comm that is closed.
fn comm_close(alloc: Global, words: &str) -> Result<Publication, AllocError> {
    let comm_id = text_at(alloc, words, 1)?;
    Ok(Publication::CommClose { comm_id })
}
