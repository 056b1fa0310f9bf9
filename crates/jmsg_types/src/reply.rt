//! What a client is replied.

ghost use Rattle.std.specs.Prelude.{◌≡◌, Some, None, IfOk, IfErr, IfSome, OnOk, codes};
ghost use Rattle.jmsg_types.specs.Content.{empty_data, texts_data};
ghost use Rattle.jmsg_types.specs.Reply.{complete_data, execute_error_data, execute_ok_data, inspect_data};
ghost use Rattle.jmsg_types.specs.Reply.{kernel_info_data, language_data, reply_data, shown_data, values_members};
ghost use Rattle.jmsg_types.specs.Reply.{verdict_data};
ghost use Rattle.serde_json.specs.Data.{boolean, member, no_members, object, put, string};
ghost use Rattle.serde_json.specs.View.{members_view, view};
ghost use Rattle.serde_json.specs.Written.{compact_text};

use crate::ContentFault;
use crate::content::{
    error_value, object_of_texts, plain_value, put_texts, texts_value, traceback_value,
};
use listed::{Row, Text};
use serde_json::{Map, Value, json};
use std::alloc::{AllocError, Global};

/// What a client is replied.
#[derive(Drop)]
pub enum Reply {
    /// What the kernel is.
    KernelInfo {
        /// The text that greets.
        banner: Text,
        /// The ending of the names of files in the language.
        file_extension: Text,
        /// The type of such files.
        mimetype: Text,
        /// The language's name.
        name: Text,
        /// The language's version.
        version: Text,
    },
    /// A cell ran to its end.
    ExecuteOk {
        /// The execution count.
        count: u64,
        /// What each user expression came to, by its name.
        values: Row<(Text, Shown)>,
    },
    /// A cell failed.
    ExecuteError {
        /// The error's name.
        ename: Text,
        /// The error's value.
        evalue: Text,
        /// The execution count.
        count: u64,
    },
    /// Any other request failed.
    Error {
        /// The error's name.
        ename: Text,
        /// The error's value.
        evalue: Text,
    },
    /// How the word at the cursor may go on.
    Complete {
        /// The words that it may be.
        matches: Row<Text>,
        /// Where it begins, in code points.
        start: u64,
        /// Where it ends, in code points.
        end: u64,
    },
    /// What the word at the cursor is, if anything is known of it.
    Inspect(Option<Text>),
    /// Whether a code is whole.
    IsComplete(Verdict),
    /// Which cells ran before: none is told.
    History,
    /// Which comms are open: none is.
    CommInfo,
    /// The kernel ends.
    Shutdown {
        /// Whether it is to begin anew afterwards.
        restart: bool,
    },
    /// The cell that runs is stopped.
    Interrupt,
}

/// What a user expression came to.
#[derive(Debug, Drop)]
pub enum Shown {
    /// Its value, as plain text.
    Text(Text),
    /// An error.
    Fault {
        /// The error's name.
        ename: Text,
        /// The error's value.
        evalue: Text,
    },
}

/// Whether a code is whole.
#[derive(Clone, Copy, Debug, PartialEq, Eq)]
pub enum Verdict {
    /// It is.
    Complete,
    /// More has to follow.
    Incomplete,
    /// Nothing that follows makes it whole.
    Invalid,
}

impl Verdict {
    /// The content of the reply that tells it, as it is sent.
    #[tactic(auto, unfolding(serde_json::proofs::OnLiterals::serde_json_on_literals))]
    fn reply_text(self) -> &'static str
        ensures { result.now ≡ compact_text (verdict_data self) }
    {
        match self {
            Verdict::Complete => r#"{"status":"complete"}"#,
            Verdict::Incomplete => r#"{"indent":"","status":"incomplete"}"#,
            Verdict::Invalid => r#"{"status":"invalid"}"#,
        }
    }
}

/// The content of a reply, as JSON.
///
/// # Errors
///
/// `OutOfMemory` alone.
pub fn content_of(alloc: Global, reply: &Reply) -> Result<Value, ContentFault>
    ensures data { IfOk result (λ value. view value ≡ reply_data reply.now) }
    ensures memory { IfErr result (λ fault. fault ≡ ContentFault.OutOfMemory) }
{
    let value = reply_value(alloc, reply)?;
    Ok(value)
}

/// The content of a reply as it is sent: its JSON with no space.
///
/// # Errors
///
/// `OutOfMemory` alone.
pub fn content_text(alloc: Global, reply: &Reply) -> Result<Vec<u8>, ContentFault>
    ensures text { IfOk result (λ text. text.items ≡ compact_text (reply_data reply.now)) }
    ensures memory { IfErr result (λ fault. fault ≡ ContentFault.OutOfMemory) }
{
    if let Some(text) = constant_text(reply) {
        return Ok(Vec::from_slice(alloc, text.as_bytes())?);
    }
    let value = reply_value(alloc, reply)?;
    Ok(value.to_string(alloc)?.into_bytes())
}

/// The content of a reply as it is sent, of those that are written out.
#[tactic(auto, unfolding(serde_json::proofs::OnLiterals::serde_json_on_literals))]
fn constant_text(reply: &Reply) -> Option<&'static str>
    ensures { IfSome result (λ text. text.now ≡ compact_text (reply_data reply.now)) }
{
    match reply {
        Reply::History => Some(r#"{"history":[],"status":"ok"}"#),
        Reply::CommInfo => Some(r#"{"comms":{},"status":"ok"}"#),
        Reply::Interrupt => Some(r#"{"status":"ok"}"#),
        Reply::IsComplete(verdict) => Some(verdict.reply_text()),
        Reply::KernelInfo { .. }
        | Reply::ExecuteOk { .. }
        | Reply::ExecuteError { .. }
        | Reply::Error { .. }
        | Reply::Complete { .. }
        | Reply::Inspect(_)
        | Reply::Shutdown { .. } => None,
    }
}

/// The content of a reply, as JSON.
fn reply_value(alloc: Global, reply: &Reply) -> Result<Value, AllocError>
    ensures { IfOk result (λ value. view value ≡ reply_data reply.now) }
{
    match reply {
        Reply::KernelInfo {
            banner,
            file_extension,
            mimetype,
            name,
            version,
        } => kernel_info_value(alloc, banner, file_extension, mimetype, name, version),
        Reply::ExecuteOk { count, values } => execute_ok_value(alloc, *count, values.as_slice()),
        Reply::ExecuteError {
            ename,
            evalue,
            count,
        } => execute_error_value(alloc, ename.as_str(), evalue.as_str(), *count),
        Reply::Error { ename, evalue } => error_value(alloc, ename.as_str(), evalue.as_str()),
        Reply::Complete {
            matches,
            start,
            end,
        } => complete_value(alloc, matches.as_slice(), *start, *end),
        Reply::Inspect(Some(text)) => found_value(alloc, text.as_str()),
        Reply::Inspect(None) => not_found_value(alloc),
        Reply::IsComplete(verdict) => verdict_value(alloc, *verdict),
        Reply::History => history_value(alloc),
        Reply::CommInfo => comms_value(alloc),
        Reply::Shutdown { restart } => shutdown_value(alloc, *restart),
        Reply::Interrupt => object_of_texts(alloc, &[("status", "ok")]),
    }
}

/// The language of a kernel, as its info tells it.
fn language_value<'t>(
    alloc: Global,
    file_extension: &'t Text,
    mimetype: &'t Text,
    name: &'t Text,
    version: &'t Text,
) -> Result<Value, AllocError>
    ensures { IfOk result (λ value. view value
        ≡ language_data file_extension.now mimetype.now name.now version.now) }
{
    object_of_texts(
        alloc,
        &[
            ("file_extension", file_extension.as_str()),
            ("mimetype", mimetype.as_str()),
            ("name", name.as_str()),
            ("version", version.as_str()),
        ],
    )
}

/// What a kernel is, of this banner and language.
fn kernel_info_value<'t>(
    alloc: Global,
    banner: &Text,
    file_extension: &'t Text,
    mimetype: &'t Text,
    name: &'t Text,
    version: &'t Text,
) -> Result<Value, AllocError>
    ensures { IfOk result (λ value. view value ≡ kernel_info_data banner.now
        (language_data file_extension.now mimetype.now name.now version.now)) }
{
    let language = language_value(alloc, file_extension, mimetype, name, version)?;
    let mut info = Map::new(alloc);
    serde_json::put(&mut info, alloc, "language_info", language)?;
    serde_json::put(
        &mut info,
        alloc,
        "help_links",
        Value::Array(Vec::new(alloc)),
    )?;
    let texts = [
        ("banner", banner.as_str()),
        ("implementation", "jkernel"),
        ("implementation_version", "1.0"),
        ("protocol_version", "5.3"),
        ("status", "ok"),
    ];
    put_texts(alloc, &mut info, &texts)?;
    Ok(Value::Object(info))
}

/// A cell that ran to its end, with what the user expressions came to.
fn execute_ok_value(
    alloc: Global,
    count: u64,
    values: &[(Text, Shown)],
) -> Result<Value, AllocError>
    ensures { IfOk result (λ value. view value
        ≡ execute_ok_data count (object (values_members values.now no_members))) }
{
    let values = values_value(alloc, values)?;
    let mut reply = Map::new(alloc);
    serde_json::put(&mut reply, alloc, "user_expressions", values)?;
    serde_json::put(&mut reply, alloc, "execution_count", Value::from(count))?;
    serde_json::put(&mut reply, alloc, "payload", Value::Array(Vec::new(alloc)))?;
    put_texts(alloc, &mut reply, &[("status", "ok")])?;
    Ok(Value::Object(reply))
}

/// A cell that failed.
fn execute_error_value<'t>(
    alloc: Global,
    ename: &'t str,
    evalue: &'t str,
    count: u64,
) -> Result<Value, AllocError>
    ensures { IfOk result (λ value. view value ≡ execute_error_data ename.now evalue.now count) }
{
    let traceback = traceback_value(alloc, ename, evalue)?;
    let mut error = Map::new(alloc);
    serde_json::put(&mut error, alloc, "traceback", traceback)?;
    serde_json::put(&mut error, alloc, "execution_count", Value::from(count))?;
    let texts = [("ename", ename), ("evalue", evalue), ("status", "error")];
    put_texts(alloc, &mut error, &texts)?;
    Ok(Value::Object(error))
}

/// Puts in what says that all went well, with no metadata.
fn put_success(alloc: Global, members: &mut Map<String, Value>) -> Result<(), AllocError>
    ensures { OnOk result (members_view members.new.entries ≡ put (codes "status") (string (codes "ok"))
        (put (codes "metadata") empty_data (members_view members.old.entries))) }
{
    serde_json::put(members, alloc, "metadata", Value::Object(Map::new(alloc)))?;
    put_texts(alloc, members, &[("status", "ok")])
}

/// How the word between two places may go on.
fn complete_value(
    alloc: Global,
    matches: &[Text],
    start: u64,
    end: u64,
) -> Result<Value, AllocError>
    ensures { IfOk result (λ value. view value ≡ complete_data (texts_data matches.now) start end) }
{
    let matches = texts_value(alloc, matches)?;
    let mut reply = Map::new(alloc);
    serde_json::put(&mut reply, alloc, "matches", matches)?;
    serde_json::put(&mut reply, alloc, "cursor_start", Value::from(start))?;
    serde_json::put(&mut reply, alloc, "cursor_end", Value::from(end))?;
    put_success(alloc, &mut reply)?;
    Ok(Value::Object(reply))
}

/// An inspection that found a text.
fn found_value(alloc: Global, text: &str) -> Result<Value, AllocError>
    ensures { IfOk result (λ value. view value ≡ inspect_data (Some text.now)) }
{
    let shown = plain_value(alloc, text)?;
    inspection_value(alloc, shown, true)
}

/// An inspection that found nothing.
fn not_found_value(alloc: Global) -> Result<Value, AllocError>
    ensures { IfOk result (λ value. view value ≡ inspect_data None) }
{
    inspection_value(alloc, Value::Object(Map::new(alloc)), false)
}

/// An inspection, of what is shown of it and whether it found that.
fn inspection_value(alloc: Global, shown: Value, found: bool) -> Result<Value, AllocError>
    ensures { IfOk result (λ value. view value ≡ object
        (member (codes "data") (view shown)
        (member (codes "found") (boolean found)
        (member (codes "metadata") empty_data
        (member (codes "status") (string (codes "ok")) no_members))))) }
{
    let mut reply = Map::new(alloc);
    serde_json::put(&mut reply, alloc, "data", shown)?;
    serde_json::put(&mut reply, alloc, "found", Value::Bool(found))?;
    put_success(alloc, &mut reply)?;
    Ok(Value::Object(reply))
}

/// Whether a code is whole.
fn verdict_value(alloc: Global, verdict: Verdict) -> Result<Value, AllocError>
    ensures { IfOk result (λ value. view value ≡ verdict_data verdict) }
{
    match verdict {
        Verdict::Complete => object_of_texts(alloc, &[("status", "complete")]),
        Verdict::Incomplete => {
            object_of_texts(alloc, &[("indent", ""), ("status", "incomplete")])
        }
        Verdict::Invalid => object_of_texts(alloc, &[("status", "invalid")]),
    }
}

/// The cells that ran before: none.
fn history_value(alloc: Global) -> Result<Value, AllocError>
    ensures { IfOk result (λ value. view value ≡ reply_data Reply.History) }
{
    json!(in alloc; {"history": [], "status": "ok"})
}

/// The comms that are open: none.
fn comms_value(alloc: Global) -> Result<Value, AllocError>
    ensures { IfOk result (λ value. view value ≡ reply_data Reply.CommInfo) }
{
    json!(in alloc; {"comms": {}, "status": "ok"})
}

/// A kernel that ends.
fn shutdown_value(alloc: Global, restart: bool) -> Result<Value, AllocError>
    ensures { IfOk result (λ value. view value ≡ reply_data (Reply.Shutdown restart)) }
{
    json!(in alloc; {"restart": restart, "status": "ok"})
}

/// What a user expression came to.
fn shown_value(alloc: Global, shown: &Shown) -> Result<Value, AllocError>
    ensures { IfOk result (λ value. view value ≡ shown_data shown.now) }
{
    match shown {
        Shown::Text(text) => shown_text_value(alloc, text.as_str()),
        Shown::Fault { ename, evalue } => error_value(alloc, ename.as_str(), evalue.as_str()),
    }
}

/// A user expression that came to a value, which is shown by this text.
fn shown_text_value(alloc: Global, text: &str) -> Result<Value, AllocError>
    ensures { IfOk result (λ value. view value ≡ shown_data (Shown.Text text.now)) }
{
    let data = plain_value(alloc, text)?;
    let mut shown = Map::new(alloc);
    serde_json::put(&mut shown, alloc, "data", data)?;
    put_success(alloc, &mut shown)?;
    Ok(Value::Object(shown))
}

/// What each user expression came to, by its name.
fn values_value(alloc: Global, values: &[(Text, Shown)]) -> Result<Value, AllocError>
    ensures { IfOk result (λ value. view value ≡ object (values_members values.now no_members)) }
{
    let mut members = Map::new(alloc);
    for (name, shown) in values {
        let value = shown_value(alloc, shown)?;
        serde_json::put(&mut members, alloc, name.as_str(), value)?;
    }
    Ok(Value::Object(members))
}
