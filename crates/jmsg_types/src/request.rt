//! What a client may ask, and how it is read.

ghost use Rattle.std.specs.Prelude.{◌≡◌, None, Ok, Err, IfOk, IfErr, IfSome, MatchResult};
ghost use Rattle.std.specs.Prelude.{codes, false, true};
ghost use Rattle.jmsg_types.specs.Fault.{IsAnswer, IsAnswerOrMemory, refusal_of};
ghost use Rattle.jmsg_types.specs.Field.{and_then, as_truth, members_in, optional};
ghost use Rattle.jmsg_types.specs.Request.{ExpressionsRise, known_request, message_type, request_in, row_of};
ghost use Rattle.serde_json.specs.View.{members_view};

use crate::field::{cursor_field, into_members, level_field, take_text, take_texts, truth_field};
use crate::{ContentFault, MessageType};
use listed::{Row, Text};
use serde_json::{Map, Value};
use std::alloc::Global;

/// What a client asks.
#[derive(Drop)]
pub enum Request {
    /// What the kernel is.
    KernelInfo,
    /// To run a cell.
    Execute {
        /// The cell.
        code: Text,
        /// Whether nothing of it is published.
        silent: bool,
        /// Whether it counts. Under `silent` it doesn't.
        store_history: bool,
        /// The names of expressions to be evaluated after the cell, and their texts, by the order of the
        /// names' octets.
        user_expressions: Row<(Text, Text)>,
        /// Whether the cell may ask for input.
        allow_stdin: bool,
        /// Whether an error drops the requests that wait.
        stop_on_error: bool,
    },
    /// How the word at the cursor may go on.
    Complete {
        /// The code.
        code: Text,
        /// The code points before the cursor, at most all of the code's.
        cursor_pos: u64,
    },
    /// What the word at the cursor is.
    Inspect {
        /// The code.
        code: Text,
        /// The code points before the cursor, at most all of the code's.
        cursor_pos: u64,
        /// How much is to be told: 0 or 1.
        detail_level: u64,
    },
    /// Whether a code is whole.
    IsComplete {
        /// The code.
        code: Text,
    },
    /// Which cells ran before.
    History,
    /// Which comms are open.
    CommInfo,
    /// To open a comm.
    CommOpen {
        /// The comm's name.
        comm_id: Text,
    },
    /// To pass a message to a comm.
    CommMsg,
    /// To close a comm.
    CommClose,
    /// To end.
    Shutdown {
        /// Whether the kernel is to begin anew afterwards.
        restart: bool,
    },
    /// To stop the cell that runs.
    Interrupt,
    /// Something of a type that isn't known.
    Unknown,
}

/// Reads the content of a message as the request that it means. The content of an unknown type isn't
/// looked at.
///
/// # Errors
///
/// `NotJson` and `NotAnObject`, and `Field` with the first field, by the table's order, that is missing without a
/// default or of a wrong kind. `OutOfMemory` if an allocation was refused.
pub fn read_request(alloc: Global, msg_type: &str, content: &[u8]) -> Result<Request, ContentFault>
    ensures read { IfOk result (λ request. request_in msg_type.now content.now ≡ Ok request) }
    ensures refused { IfErr result (λ fault. IfSome (refusal_of fault)
        (λ refusal. request_in msg_type.now content.now ≡ Err refusal)) }
    ensures ordered { IfOk result ExpressionsRise }
    ensures unknown { message_type msg_type.now ≡ None → result ≡ Ok Request.Unknown }
{
    match MessageType::from_name(msg_type) {
        Some(kind) => read_known(alloc, kind, content),
        None => Ok(Request::Unknown),
    }
}

/// Reads the content of a message of a known type as the request that it means.
///
/// # Errors
///
/// As `read_request`.
pub fn read_known(alloc: Global, kind: MessageType, content: &[u8]) -> Result<Request, ContentFault>
    ensures answer { IsAnswerOrMemory result (known_request kind content.now) }
    ensures ordered { IfOk result ExpressionsRise }
{
    let mut members = read_members(alloc, content)?;
    let request = read_fields(alloc, kind, &mut members);
    drop(members);
    request
}

/// The members of a content, which is to be an object.
fn read_members(alloc: Global, content: &[u8]) -> Result<Map<String, Value>, ContentFault>
    ensures { MatchResult result
        (λ members. members_in content.now ≡ Ok (members_view members.entries))
        (λ fault. IfSome (refusal_of fault) (λ refusal. members_in content.now ≡ Err refusal)) }
{
    match Value::from_slice(alloc, content) {
        Ok(value) => into_members(value).ok_or(ContentFault::NotAnObject),
        Err(refusal) if refusal.is_memory() => Err(ContentFault::OutOfMemory),
        Err(_) => Err(ContentFault::NotJson),
    }
}

/// Reads the members of a content by the row of its type in the table.
fn read_fields(
    alloc: Global,
    kind: MessageType,
    members: &mut Map<String, Value>,
) -> Result<Request, ContentFault>
    ensures answer { IsAnswerOrMemory result ((row_of kind).fields (members_view members.old.entries)) }
    ensures ordered { IfOk result ExpressionsRise }
{
    match kind {
        MessageType::KernelInfoRequest => Ok(Request::KernelInfo),
        MessageType::ExecuteRequest => read_execute(alloc, members),
        MessageType::CompleteRequest => read_complete(members),
        MessageType::InspectRequest => read_inspect(members),
        MessageType::IsCompleteRequest => read_is_complete(members),
        MessageType::HistoryRequest => Ok(Request::History),
        MessageType::CommInfoRequest => Ok(Request::CommInfo),
        MessageType::CommOpen => read_comm_open(members),
        MessageType::CommMsg => Ok(Request::CommMsg),
        MessageType::CommClose => Ok(Request::CommClose),
        MessageType::ShutdownRequest => read_shutdown(members),
        MessageType::InterruptRequest => Ok(Request::Interrupt),
    }
}

/// Reads an `execute_request`. Each kind is judged before silence has its effect.
fn read_execute(alloc: Global, members: &mut Map<String, Value>) -> Result<Request, ContentFault>
    ensures answer { IsAnswerOrMemory result
        ((row_of MessageType.ExecuteRequest).fields (members_view members.old.entries)) }
    ensures ordered { IfOk result ExpressionsRise }
{
    let code = take_text(members, "code")?;
    let (silent, store_history) = read_silence(members)?;
    let user_expressions = take_texts(alloc, members, "user_expressions")?;
    let (allow_stdin, stop_on_error) = read_allowances(members)?;
    Ok(Request::Execute {
        code,
        silent,
        store_history: store_history && !silent,
        user_expressions,
        allow_stdin,
        stop_on_error,
    })
}

/// Reads whether a cell is silent, and whether it is to be counted.
fn read_silence(members: &Map<String, Value>) -> Result<(bool, bool), ContentFault>
    ensures silent { IfOk result (λ told.
        optional as_truth false (codes "silent") (members_view members.now.entries) ≡ Ok told.0) }
    ensures store_history { IfOk result (λ told.
        optional as_truth true (codes "store_history") (members_view members.now.entries) ≡ Ok told.1) }
    ensures answer { IsAnswer result
        (and_then (optional as_truth false (codes "silent") (members_view members.now.entries)) (λ silent.
        and_then (optional as_truth true (codes "store_history") (members_view members.now.entries))
        (λ store_history. Ok (silent, store_history)))) }
{
    let silent = truth_field(members, "silent", false)?;
    let store_history = truth_field(members, "store_history", true)?;
    Ok((silent, store_history))
}

/// Reads whether a cell may ask for input, and whether an error drops the requests that wait.
fn read_allowances(members: &Map<String, Value>) -> Result<(bool, bool), ContentFault>
    ensures allow_stdin { IfOk result (λ told.
        optional as_truth true (codes "allow_stdin") (members_view members.now.entries) ≡ Ok told.0) }
    ensures stop_on_error { IfOk result (λ told.
        optional as_truth true (codes "stop_on_error") (members_view members.now.entries) ≡ Ok told.1) }
    ensures answer { IsAnswer result
        (and_then (optional as_truth true (codes "allow_stdin") (members_view members.now.entries)) (λ allow_stdin.
        and_then (optional as_truth true (codes "stop_on_error") (members_view members.now.entries))
        (λ stop_on_error. Ok (allow_stdin, stop_on_error)))) }
{
    let allow_stdin = truth_field(members, "allow_stdin", true)?;
    let stop_on_error = truth_field(members, "stop_on_error", true)?;
    Ok((allow_stdin, stop_on_error))
}

/// Reads a `complete_request`.
fn read_complete(members: &mut Map<String, Value>) -> Result<Request, ContentFault>
    ensures answer { IsAnswer result
        ((row_of MessageType.CompleteRequest).fields (members_view members.old.entries)) }
    ensures ordered { IfOk result ExpressionsRise }
{
    let code = take_text(members, "code")?;
    let cursor_pos = cursor_field(members, "cursor_pos", code.as_str())?;
    Ok(Request::Complete { code, cursor_pos })
}

/// Reads an `inspect_request`.
fn read_inspect(members: &mut Map<String, Value>) -> Result<Request, ContentFault>
    ensures answer { IsAnswer result
        ((row_of MessageType.InspectRequest).fields (members_view members.old.entries)) }
    ensures ordered { IfOk result ExpressionsRise }
{
    let code = take_text(members, "code")?;
    let cursor_pos = cursor_field(members, "cursor_pos", code.as_str())?;
    let detail_level = level_field(members, "detail_level")?;
    Ok(Request::Inspect {
        code,
        cursor_pos,
        detail_level,
    })
}

/// Reads an `is_complete_request`.
fn read_is_complete(members: &mut Map<String, Value>) -> Result<Request, ContentFault>
    ensures answer { IsAnswer result
        ((row_of MessageType.IsCompleteRequest).fields (members_view members.old.entries)) }
    ensures ordered { IfOk result ExpressionsRise }
{
    let code = take_text(members, "code")?;
    Ok(Request::IsComplete { code })
}

/// Reads a `comm_open`.
fn read_comm_open(members: &mut Map<String, Value>) -> Result<Request, ContentFault>
    ensures answer { IsAnswer result
        ((row_of MessageType.CommOpen).fields (members_view members.old.entries)) }
    ensures ordered { IfOk result ExpressionsRise }
{
    let comm_id = take_text(members, "comm_id")?;
    Ok(Request::CommOpen { comm_id })
}

/// Reads a `shutdown_request`.
fn read_shutdown(members: &Map<String, Value>) -> Result<Request, ContentFault>
    ensures answer { IsAnswer result
        ((row_of MessageType.ShutdownRequest).fields (members_view members.now.entries)) }
    ensures ordered { IfOk result ExpressionsRise }
{
    let restart = truth_field(members, "restart", false)?;
    Ok(Request::Shutdown { restart })
}
