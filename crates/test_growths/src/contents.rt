//! Calls of contents: those of replies and publications, how faults are told, and connection files.

use crate::marks::{begin, end, say_number, say_octets, text_at};
use conn_file::read_connection;
use interp_core::{InterpFault, fault_words};
use jmsg_types::{
    ContentFault, Publication, Reply, Shown, State, Verdict, content_of, content_of_publication,
    content_text, content_text_of_publication, content_words,
};
use listed::{Frames, Row, Text};
use serde_json::Value;
use std::alloc::{AllocError, Global};

/// Reads a connection file, and tells its fields.
pub(crate) fn connection<R: Print + AllocGlobal>(rt: &R, words: &[Vec<u8>]) {
    begin(rt);
    let read = read_connection(rt.alloc(), text_at(words, 0));
    end(rt);
    match &read {
        Ok(file) => {
            say_octets(rt, file.ip.as_str().as_bytes());
            for port in [
                file.shell_port,
                file.iopub_port,
                file.control_port,
                file.hb_port,
            ] {
                let _ = print!(rt; " {port}");
            }
            say_octets(rt, file.key.as_slice());
        }
        Err(fault) => say_number(rt, fault.number()),
    }
}

/// An owned text.
fn text(alloc: Global, text: &str) -> Result<Text, AllocError> {
    Ok(Text::new(String::from_str(alloc, text)?))
}

/// An error of a user expression.
fn shown_fault(alloc: Global) -> Result<Shown, AllocError> {
    let ename = text(alloc, "ZeroDivisionError")?;
    let evalue = text(alloc, "division by zero")?;
    Ok(Shown::Fault { ename, evalue })
}

/// What two user expressions came to.
fn values(alloc: Global) -> Result<Row<(Text, Shown)>, AllocError> {
    let sixteen = (text(alloc, "a")?, Shown::Text(text(alloc, "16")?));
    let none = (text(alloc, "b")?, shown_fault(alloc)?);
    Ok(Row::new(Vec::from_array(alloc, [sixteen, none])?))
}

/// What the kernel is.
fn info(alloc: Global) -> Result<Reply, AllocError> {
    let banner = text(alloc, "b")?;
    let file_extension = text(alloc, ".e")?;
    let mimetype = text(alloc, "text/m")?;
    let name = text(alloc, "n")?;
    let version = text(alloc, "1")?;
    Ok(Reply::KernelInfo {
        banner,
        file_extension,
        mimetype,
        name,
        version,
    })
}

/// How a word may go on.
fn completion(alloc: Global) -> Result<Reply, AllocError> {
    let matches = [text(alloc, "a1")?, text(alloc, "ab")?];
    Ok(Reply::Complete {
        matches: Row::new(Vec::from_array(alloc, matches)?),
        start: 3,
        end: 4,
    })
}

/// The name and the value of an error.
fn error(alloc: Global) -> Result<(Text, Text), AllocError> {
    let ename = text(alloc, "OverflowError")?;
    let evalue = text(alloc, "result outside 64 bits")?;
    Ok((ename, evalue))
}

/// A cell that failed.
fn failed_cell(alloc: Global) -> Result<Reply, AllocError> {
    let (ename, evalue) = error(alloc)?;
    Ok(Reply::ExecuteError {
        ename,
        evalue,
        count: 1,
    })
}

/// Another request that failed.
fn failed(alloc: Global) -> Result<Reply, AllocError> {
    let (ename, evalue) = error(alloc)?;
    Ok(Reply::Error { ename, evalue })
}

/// The reply of a name that has no text of its own.
fn short_reply(name: &str) -> Reply {
    match name {
        "unknown" => Reply::Inspect(None),
        "whole" => Reply::IsComplete(Verdict::Complete),
        "part" => Reply::IsComplete(Verdict::Incomplete),
        "invalid" => Reply::IsComplete(Verdict::Invalid),
        "history" => Reply::History,
        "comms" => Reply::CommInfo,
        "shutdown" => Reply::Shutdown { restart: true },
        _ => Reply::Interrupt,
    }
}

/// The reply of a name.
fn reply_named(alloc: Global, name: &str) -> Result<Reply, AllocError> {
    match name {
        "ok" => Ok(Reply::ExecuteOk {
            count: 1,
            values: values(alloc)?,
        }),
        "error" => failed_cell(alloc),
        "failed" => failed(alloc),
        "info" => info(alloc),
        "complete" => completion(alloc),
        "inspect" => Ok(Reply::Inspect(Some(text(alloc, "ab = 2")?))),
        _ => Ok(short_reply(name)),
    }
}

/// Makes the content of a reply in both ways, and tells it.
pub(crate) fn reply<R: Print + AllocGlobal>(rt: &R, words: &[Vec<u8>]) -> Result<(), AllocError> {
    let reply = reply_named(rt.alloc(), text_at(words, 0))?;
    begin(rt);
    let value = content_of(rt.alloc(), &reply);
    end(rt);
    tell_value(rt, &value);
    begin(rt);
    let octets = content_text(rt.alloc(), &reply);
    end(rt);
    tell_text(rt, &octets);
    drop(octets);
    drop(value);
    Ok(())
}

/// What a cell displays, with HTML.
fn page(alloc: Global) -> Result<Publication, AllocError> {
    let html = text(alloc, "<b>p</b>")?;
    let text = text(alloc, "p")?;
    Ok(Publication::DisplayHtml { text, html })
}

/// The error of a cell.
fn failure(alloc: Global) -> Result<Publication, AllocError> {
    let (ename, evalue) = error(alloc)?;
    Ok(Publication::Error { ename, evalue })
}

/// The publication of a name that has one text.
fn publication_of(alloc: Global, name: &str, text: Text) -> Publication {
    match name {
        "input" => Publication::ExecuteInput {
            code: text,
            count: 1,
        },
        "stream" => Publication::Stream { err: false, text },
        "result" => Publication::ExecuteResult { text, count: 2 },
        "close" => Publication::CommClose { comm_id: text },
        _ => Publication::Display {
            text,
            buffers: Frames::new(Vec::new(alloc)),
        },
    }
}

/// The publication of a name.
fn publication_named(alloc: Global, name: &str) -> Result<Publication, AllocError> {
    match name {
        "busy" => Ok(Publication::Status(State::Busy)),
        "html" => page(alloc),
        "error" => failure(alloc),
        _ => {
            let text = text(alloc, "p")?;
            Ok(publication_of(alloc, name, text))
        }
    }
}

/// Makes the content of a publication in both ways, and tells it.
pub(crate) fn publication<R: Print + AllocGlobal>(
    rt: &R,
    words: &[Vec<u8>],
) -> Result<(), AllocError> {
    let publication = publication_named(rt.alloc(), text_at(words, 0))?;
    begin(rt);
    let value = content_of_publication(rt.alloc(), &publication);
    end(rt);
    tell_value(rt, &value);
    begin(rt);
    let octets = content_text_of_publication(rt.alloc(), &publication);
    end(rt);
    tell_text(rt, &octets);
    drop(octets);
    drop(value);
    Ok(())
}

/// Tells a content that was made as JSON.
fn tell_value<R: Print + AllocGlobal>(rt: &R, value: &Result<Value, ContentFault>) {
    match value {
        Ok(value) => {
            let _ = print!(rt; " {value}");
        }
        Err(fault) => say_number(rt, fault.number()),
    }
}

/// Tells a content that was made as it is sent.
fn tell_text<R: Print + AllocGlobal>(rt: &R, octets: &Result<Vec<u8>, ContentFault>) {
    match octets {
        Ok(octets) => say_octets(rt, octets),
        Err(fault) => say_number(rt, fault.number()),
    }
}

/// Tells the words of the fault with a number: of a content, of a cell, or what a language says itself.
pub(crate) fn words<R: Print + AllocGlobal>(rt: &R, words: &[Vec<u8>]) -> Result<(), AllocError> {
    match text_at(words, 0) {
        "30" => content_fault(rt, &ContentFault::NotJson),
        "31" => content_fault(rt, &ContentFault::NotAnObject),
        "32" => content_fault(rt, &ContentFault::Field("code")),
        "57" => raised(rt)?,
        number => known_fault(rt, number),
    }
    Ok(())
}

/// Tells the words of the fault of a cell with a number, which has nothing of its own.
fn known_fault<R: Print + AllocGlobal>(rt: &R, number: &str) {
    match number {
        "50" => cell_fault(rt, &InterpFault::Syntax(5)),
        "51" => cell_fault(rt, &InterpFault::Overflow),
        "52" => cell_fault(rt, &InterpFault::ZeroDivision),
        "53" => cell_fault(rt, &InterpFault::Shift),
        "54" => cell_fault(rt, &InterpFault::TooDeep),
        "55" => cell_fault(rt, &InterpFault::Interrupted),
        "56" => cell_fault(rt, &InterpFault::OutOfMemory),
        _ => {}
    }
}

/// Tells the words of what a language says itself.
fn raised<R: Print + AllocGlobal>(rt: &R) -> Result<(), AllocError> {
    let name = text(rt.alloc(), "OperationalError")?;
    let value = text(rt.alloc(), "no such table: x")?;
    cell_fault(rt, &InterpFault::Raised { name, value });
    Ok(())
}

/// Tells the words of a content's fault.
fn content_fault<R: Print + AllocGlobal>(rt: &R, fault: &ContentFault) {
    begin(rt);
    let told = content_words(rt.alloc(), fault);
    end(rt);
    match told {
        Ok((name, value)) => say_words(rt, name, value),
        Err(refused) => say_number(rt, refused.number()),
    }
}

/// Tells the words of a cell's fault.
fn cell_fault<R: Print + AllocGlobal>(rt: &R, fault: &InterpFault) {
    begin(rt);
    let told = fault_words(rt.alloc(), fault);
    end(rt);
    match told {
        Ok((name, value)) => say_words(rt, name, value),
        Err(refused) => say_number(rt, refused.number()),
    }
}

/// Tells a name and what is said under it.
fn say_words<R: Print + AllocGlobal>(rt: &R, name: &str, value: Text) {
    say_octets(rt, name.as_bytes());
    say_octets(rt, value.as_str().as_bytes());
}
