//! What is published.

ghost use Rattle.std.specs.Prelude.{◌≡◌, IfOk, IfErr};
ghost use Rattle.jmsg_types.specs.Publication.{failure_data, publication_data, publication_type, state_word};
ghost use Rattle.jmsg_types.specs.Publication.{buffers, display_data, display_html_data, stream_name, topic};
ghost use Rattle.listed.specs.Bodies.{bodies};
ghost use Rattle.jmsg_types.specs.declared.publication.Publication.TheVariants.{CommClose, ExecuteInput};
ghost use Rattle.jmsg_types.specs.declared.publication.Publication.TheVariants.{ExecuteResult, Status};
ghost use Rattle.serde_json.specs.View.{view};
ghost use Rattle.serde_json.specs.Written.{compact_text};

use crate::ContentFault;
use crate::content::{object_of_texts, plain_value, put_texts, traceback_value};
use listed::{Frames, Text};
use serde_json::{Map, Value, json};
use std::alloc::{AllocError, Global};

/// What is published.
#[derive(Drop)]
pub enum Publication {
    /// What the kernel is doing.
    Status(State),
    /// A cell is to be run.
    ExecuteInput {
        /// The cell.
        code: Text,
        /// The execution count.
        count: u64,
    },
    /// A cell wrote a text.
    Stream {
        /// Whether it wrote to the stream of errors.
        err: bool,
        /// The text.
        text: Text,
    },
    /// A cell has a value.
    ExecuteResult {
        /// The value, as plain text.
        text: Text,
        /// The execution count.
        count: u64,
    },
    /// A cell shows something.
    Display {
        /// What it shows, as plain text.
        text: Text,
        /// Octets that go along with it as they are.
        buffers: Frames,
    },
    /// A cell shows something that a page shows in a form of its own.
    DisplayHtml {
        /// What it shows, as plain text.
        text: Text,
        /// The same as a fragment of HTML.
        html: Text,
    },
    /// A cell failed.
    Error {
        /// The error's name.
        ename: Text,
        /// The error's value.
        evalue: Text,
    },
    /// A comm is closed.
    CommClose {
        /// The comm's name.
        comm_id: Text,
    },
}

/// What the kernel is doing.
#[derive(Clone, Copy, Debug, PartialEq, Eq)]
pub enum State {
    /// It has begun, and answered nothing yet.
    Starting,
    /// It works on a request.
    Busy,
    /// It waits for a request.
    Idle,
}

impl State {
    /// The word for it in a status.
    fn word(self) -> &'static str
        ensures { result.now ≡ state_word self }
    {
        match self {
            State::Starting => "starting",
            State::Busy => "busy",
            State::Idle => "idle",
        }
    }

    /// The content of the status that tells it, as it is sent.
    #[tactic(auto, unfolding(serde_json::proofs::OnLiterals::serde_json_on_literals))]
    fn status_text(self) -> &'static str
        ensures { result.now ≡ compact_text (publication_data (Status self)) }
    {
        match self {
            State::Starting => r#"{"execution_state":"starting"}"#,
            State::Busy => r#"{"execution_state":"busy"}"#,
            State::Idle => r#"{"execution_state":"idle"}"#,
        }
    }
}

/// The name of the stream of errors, or of the other one.
fn stream_name(err: bool) -> &'static str
    ensures { result.now ≡ stream_name err }
{
    if err { "stderr" } else { "stdout" }
}

/// The type of the message that carries a publication.
pub fn type_of(publication: &Publication) -> &'static str
    ensures { result.now ≡ publication_type publication.now }
{
    match publication {
        Publication::Status(_) => "status",
        Publication::ExecuteInput { .. } => "execute_input",
        Publication::Stream { .. } => "stream",
        Publication::ExecuteResult { .. } => "execute_result",
        Publication::Display { .. } | Publication::DisplayHtml { .. } => "display_data",
        Publication::Error { .. } => "error",
        Publication::CommClose { .. } => "comm_close",
    }
}

/// The topic under which a publication goes out: its message type, of a stream with its name.
pub fn topic_of(publication: &Publication) -> &'static str
    ensures { result.now ≡ topic publication.now }
{
    match publication {
        Publication::Stream { err: true, .. } => "stream.stderr",
        Publication::Stream { err: false, .. } => "stream.stdout",
        Publication::Status(_)
        | Publication::ExecuteInput { .. }
        | Publication::ExecuteResult { .. }
        | Publication::Display { .. }
        | Publication::DisplayHtml { .. }
        | Publication::Error { .. }
        | Publication::CommClose { .. } => type_of(publication),
    }
}

/// The buffers of a publication, which stand after its content ('Messaging in Jupyter' 5.3, "The Wire Protocol"): those
/// of what a cell shows, and none of any other. Takes no memory.
pub fn buffers_of(publication: &Publication) -> &[Vec<u8>]
    ensures { bodies result.now ≡ buffers publication.now }
{
    match publication {
        Publication::Display { buffers, .. } => buffers.as_slice(),
        Publication::Status(_)
        | Publication::ExecuteInput { .. }
        | Publication::Stream { .. }
        | Publication::ExecuteResult { .. }
        | Publication::DisplayHtml { .. }
        | Publication::Error { .. }
        | Publication::CommClose { .. } => &[],
    }
}

impl Publication {
    /// Its buffers, without a copy: those that `buffers_of` lends. Takes no memory.
    pub fn into_buffers(self, alloc: Global) -> Frames
        ensures { result ≡ buffers self }
    {
        match self {
            Publication::Display { text, buffers } => {
                drop(text);
                buffers
            }
            other => {
                drop(other);
                Frames::new(Vec::new(alloc))
            }
        }
    }
}

/// The content of a publication, as JSON.
///
/// # Errors
///
/// `OutOfMemory` alone.
pub fn content_of_publication(
    alloc: Global,
    publication: &Publication,
) -> Result<Value, ContentFault>
    ensures data { IfOk result (λ value. view value ≡ publication_data publication.now) }
    ensures memory { IfErr result (λ fault. fault ≡ ContentFault.OutOfMemory) }
{
    let value = publication_value(alloc, publication)?;
    Ok(value)
}

/// The content of a publication as it is sent: its JSON with no space.
///
/// # Errors
///
/// `OutOfMemory` alone.
pub fn content_text_of_publication(
    alloc: Global,
    publication: &Publication,
) -> Result<Vec<u8>, ContentFault>
    ensures text { IfOk result (λ text. text.items ≡ compact_text (publication_data publication.now)) }
    ensures memory { IfErr result (λ fault. fault ≡ ContentFault.OutOfMemory) }
{
    if let Publication::Status(state) = publication {
        return Ok(Vec::from_slice(alloc, state.status_text().as_bytes())?);
    }
    let value = publication_value(alloc, publication)?;
    Ok(value.to_string(alloc)?.into_bytes())
}

/// The content of a publication, as JSON.
fn publication_value(alloc: Global, publication: &Publication) -> Result<Value, AllocError>
    ensures { IfOk result (λ value. view value ≡ publication_data publication.now) }
{
    match publication {
        Publication::Status(state) => {
            object_of_texts(alloc, &[("execution_state", state.word())])
        }
        Publication::ExecuteInput { code, count } => input_value(alloc, code.as_str(), *count),
        Publication::Stream { err, text } => {
            object_of_texts(
                alloc,
                &[("name", stream_name(*err)), ("text", text.as_str())],
            )
        }
        Publication::ExecuteResult { text, count } => result_value(alloc, text.as_str(), *count),
        Publication::Display { text, .. } => display_value(alloc, text.as_str()),
        Publication::DisplayHtml { text, html } => {
            display_html_value(alloc, text.as_str(), html.as_str())
        }
        Publication::Error { ename, evalue } => {
            failure_value(alloc, ename.as_str(), evalue.as_str())
        }
        Publication::CommClose { comm_id } => comm_close_value(alloc, comm_id.as_str()),
    }
}

/// A cell that is to be run.
fn input_value(alloc: Global, code: &str, count: u64) -> Result<Value, AllocError>
    ensures { IfOk result (λ value. view value ≡ publication_data (ExecuteInput code.now count)) }
{
    json!(in alloc; {"code": code, "execution_count": count})
}

/// A value of a cell.
fn result_value(alloc: Global, text: &str, count: u64) -> Result<Value, AllocError>
    ensures { IfOk result (λ value. view value ≡ publication_data (ExecuteResult text.now count)) }
{
    let data = plain_value(alloc, text)?;
    let mut members = Map::new(alloc);
    serde_json::put(&mut members, alloc, "data", data)?;
    serde_json::put(&mut members, alloc, "execution_count", Value::from(count))?;
    serde_json::put(
        &mut members,
        alloc,
        "metadata",
        Value::Object(Map::new(alloc)),
    )?;
    Ok(Value::Object(members))
}

/// What a cell shows.
fn display_value(alloc: Global, text: &str) -> Result<Value, AllocError>
    ensures { IfOk result (λ value. view value ≡ display_data text.now) }
{
    let data = plain_value(alloc, text)?;
    json!(in alloc; {"data": data, "metadata": {}})
}

/// What a cell shows, with the form that a page has for it.
fn display_html_value(alloc: Global, text: &str, html: &str) -> Result<Value, AllocError>
    ensures { IfOk result (λ value. view value ≡ display_html_data text.now html.now) }
{
    json!(in alloc; {"data": {"text/html": html, "text/plain": text}, "metadata": {}})
}

/// A comm that is closed.
fn comm_close_value(alloc: Global, comm_id: &str) -> Result<Value, AllocError>
    ensures { IfOk result (λ value. view value ≡ publication_data (CommClose comm_id.now)) }
{
    json!(in alloc; {"comm_id": comm_id, "data": {}})
}

/// A cell that failed.
fn failure_value<'t>(alloc: Global, ename: &'t str, evalue: &'t str) -> Result<Value, AllocError>
    ensures { IfOk result (λ value. view value ≡ failure_data ename.now evalue.now) }
{
    let traceback = traceback_value(alloc, ename, evalue)?;
    let mut failure = Map::new(alloc);
    serde_json::put(&mut failure, alloc, "traceback", traceback)?;
    put_texts(alloc, &mut failure, &[("ename", ename), ("evalue", evalue)])?;
    Ok(Value::Object(failure))
}
