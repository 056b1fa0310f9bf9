//! Contents of requests, read, and the types of messages.

use crate::contents;
use crate::spelling::{Plain, decoded, number_at, octets_at, text_at};
use jmsg_types::{ContentFault, MessageType, Request, content_words, read_request, reply_type};
use listed::Text;
use std::alloc::{AllocError, Global};
use std::str;

/// What reading a content answers, which stands behind the type of its message and a colon.
pub(crate) fn read(alloc: Global, line: &str) -> Result<String, AllocError> {
    let (msg_type, content) = line.split_once(':').unwrap_or((line, ""));
    let msg_type = decoded(alloc, msg_type)?;
    let content = decoded(alloc, content)?;
    match str::from_utf8(&msg_type) {
        Ok(msg_type) => read_octets(alloc, msg_type, &content),
        Err(_) => String::from_str(alloc, "no type"),
    }
}

/// What reading a content of a type answers: the request, or the fault's number and words.
fn read_octets(alloc: Global, msg_type: &str, content: &[u8]) -> Result<String, AllocError> {
    match read_request(alloc, msg_type, content) {
        Ok(request) => {
            let told = told(alloc, &request);
            drop(request);
            told
        }
        Err(fault) => contents::told(alloc, fault),
    }
}

/// One line that tells a request with all its fields.
fn told(alloc: Global, request: &Request) -> Result<String, AllocError> {
    match request {
        Request::Execute {
            code,
            silent,
            store_history,
            user_expressions,
            allow_stdin,
            stop_on_error,
        } => {
            let flags = [*silent, *store_history, *allow_stdin, *stop_on_error];
            execute_told(alloc, code.as_str(), flags, user_expressions.as_slice())
        }
        Request::Complete { code, cursor_pos } => complete_told(alloc, code.as_str(), *cursor_pos),
        Request::Inspect {
            code,
            cursor_pos,
            detail_level,
        } => inspect_told(alloc, code.as_str(), *cursor_pos, *detail_level),
        Request::IsComplete { code } => text_told(alloc, "is complete", code.as_str()),
        Request::CommOpen { comm_id } => text_told(alloc, "comm open", comm_id.as_str()),
        Request::Shutdown { restart } => shutdown_told(alloc, *restart),
        Request::KernelInfo => String::from_str(alloc, "kernel info"),
        Request::History => String::from_str(alloc, "history"),
        Request::CommInfo => String::from_str(alloc, "comm info"),
        Request::CommMsg => String::from_str(alloc, "comm msg"),
        Request::CommClose => String::from_str(alloc, "comm close"),
        Request::Interrupt => String::from_str(alloc, "interrupt"),
        Request::Unknown => String::from_str(alloc, "unknown"),
    }
}

/// A cell to run: whether it is silent and goes into the history, and whether it may ask and stops those behind it.
fn execute_told(
    alloc: Global,
    code: &str,
    flags: [bool; 4],
    expressions: &[(Text, Text)],
) -> Result<String, AllocError> {
    let [silent, store_history, allow_stdin, stop_on_error] = flags;
    let expressions = listing(alloc, expressions)?;
    let flags = format!(in alloc; "{allow_stdin} {stop_on_error}")?;
    format!(in alloc;
        "execute <{}> {silent} {store_history} <{expressions}> {flags}",
        Plain(code)
    )
}

/// A word to complete.
fn complete_told(alloc: Global, code: &str, cursor_pos: u64) -> Result<String, AllocError> {
    format!(in alloc; "complete <{}> {cursor_pos}", Plain(code))
}

/// A word to inspect.
fn inspect_told(
    alloc: Global,
    code: &str,
    cursor_pos: u64,
    detail_level: u64,
) -> Result<String, AllocError> {
    format!(in alloc; "inspect <{}> {cursor_pos} {detail_level}", Plain(code))
}

/// A request that has one text.
fn text_told(alloc: Global, name: &str, text: &str) -> Result<String, AllocError> {
    format!(in alloc; "{name} <{}>", Plain(text))
}

/// The wish to end, and to begin anew or not.
fn shutdown_told(alloc: Global, restart: bool) -> Result<String, AllocError> {
    format!(in alloc; "shutdown {restart}")
}

/// Names and texts, each as `name=text;`.
fn listing(alloc: Global, texts: &[(Text, Text)]) -> Result<String, AllocError> {
    let mut line = String::new(alloc);
    for (name, text) in texts {
        add_pair(&mut line, name.as_str(), text.as_str())?;
    }
    Ok(line)
}

/// Adds a name and a text to a line.
fn add_pair(line: &mut String, name: &str, text: &str) -> Result<(), AllocError> {
    line.push_str(name)?;
    line.push_str("=")?;
    line.push_str(text)?;
    line.push_str(";")
}

/// How many octets a code has that is read, and its cursor: it is a character so many times.
pub(crate) fn large(alloc: Global, words: &str) -> Result<String, AllocError> {
    let content = repeated(alloc, words)?;
    match read_request(alloc, "complete_request", &content) {
        Ok(request) => {
            let measured = measured(alloc, &request);
            drop(request);
            measured
        }
        Err(fault) => contents::told(alloc, fault),
    }
}

/// A content whose code is a character so many times.
fn repeated(alloc: Global, words: &str) -> Result<Vec<u8>, AllocError> {
    let character = octets_at(alloc, words, 0)?;
    let mut content = Vec::new(alloc);
    let added = add_content(&mut content, &character, number_at(words, 1));
    drop(character);
    match added {
        Ok(()) => Ok(content),
        Err(refused) => {
            drop(content);
            Err(refused)
        }
    }
}

/// Adds that content.
fn add_content(content: &mut Vec<u8>, character: &[u8], times: u64) -> Result<(), AllocError> {
    content.extend_from_slice(b"{\"code\":\"")?;
    for _ in 0..times {
        content.extend_from_slice(character)?;
    }
    content.extend_from_slice(b"\"}")
}

/// How many octets the code of a completion has, and its cursor.
fn measured(alloc: Global, request: &Request) -> Result<String, AllocError> {
    if let Request::Complete { code, cursor_pos } = request {
        format!(in alloc; "{} {cursor_pos}", code.len())
    } else {
        String::from_str(alloc, "another request")
    }
}

/// By which name and words a reply reports that the content of a cell is refused.
pub(crate) fn report(alloc: Global, content: &str) -> Result<String, AllocError> {
    let content = decoded(alloc, content)?;
    match read_request(alloc, "execute_request", &content) {
        Ok(request) => {
            drop(request);
            String::from_str(alloc, "not refused")
        }
        Err(fault) => reported(alloc, fault),
    }
}

/// By which name and words a reply reports a fault.
fn reported(alloc: Global, fault: ContentFault) -> Result<String, AllocError> {
    match content_words(alloc, &fault) {
        Ok((name, words)) => format!(in alloc; "{name}: {}", words.as_str()),
        Err(refused) => contents::told(alloc, refused),
    }
}

/// The type of a name, and the name of the type that replies to it.
pub(crate) fn type_named(alloc: Global, words: &str) -> Result<String, AllocError> {
    let name = text_at(alloc, words, 0)?;
    let (kind, reply) = (
        MessageType::from_name(name.as_str()),
        reply_type(name.as_str()),
    );
    format!(in alloc; "{kind:?} {reply:?}")
}
