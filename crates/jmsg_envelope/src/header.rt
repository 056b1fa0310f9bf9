//! Headers: the names that one says, and the text of a new one.

ghost use Rattle.std.specs.Prelude.{◌≡◌, ◌⊎◌, Some, None, IfOk, IfErr, option_map, map};
ghost use Rattle.jmsg_envelope.specs.Header.{header_data, header_names, header_octets, names_of, text_at, texts_by_key};
ghost use Rattle.serde_json.specs.View.{view, members_view};
ghost use Rattle.serde_json.specs.Data.{no_members};

use crate::EnvelopeFault;
use listed::Text;
use serde_json::{Map, Value};
use std::alloc::{AllocError, Global};

/// The octets of a header that the kernel writes ('Messaging in Jupyter' 5.3, "General Message Format"). They are a
/// JSON object with its keys in the order of their octets, and no space.
///
/// # Errors
///
/// `OutOfMemory` alone.
pub fn header_text(
    alloc: Global,
    session: &str,
    id: &str,
    date: &str,
    msg_type: &str,
) -> Result<Vec<u8>, EnvelopeFault>
    ensures text { IfOk result
        (λ text. text.items ≡ header_octets session.now id.now date.now msg_type.now) }
    ensures memory { IfErr result (λ fault. fault ≡ EnvelopeFault.OutOfMemory) }
{
    let text = header_value(alloc, session, id, date, msg_type)?.to_string(alloc)?;
    Ok(text.into_bytes())
}

/// A header that the kernel writes, as JSON.
fn header_value<'t>(
    alloc: Global,
    session: &'t str,
    id: &'t str,
    date: &'t str,
    msg_type: &'t str,
) -> Result<Value, AllocError>
    ensures { IfOk result
        (λ header. view header ≡ header_data session.now id.now date.now msg_type.now) }
{
    let members = texts_by_key(
        alloc,
        &[
            ("date", date),
            ("msg_id", id),
            ("msg_type", msg_type),
            ("session", session),
            ("username", "kernel"),
            ("version", "5.3"),
        ],
    )?;
    Ok(Value::Object(members))
}

/// Members of an object that are texts, each with its key.
fn texts_by_key(alloc: Global, texts: &[(&str, &str)]) -> Result<Map<String, Value>, AllocError>
    ensures { IfOk result (λ members. members_view members.entries
        ≡ texts_by_key (map (λ text. (text.0.now, text.1.now)) texts.now) no_members) }
{
    let mut members = Map::new(alloc);
    for (key, text) in texts {
        let value = Value::try_from_str(alloc, text)?;
        serde_json::put(&mut members, alloc, key, value)?;
    }
    Ok(members)
}

/// The id and the type that a header names.
pub(crate) fn read_names(alloc: Global, octets: &[u8]) -> Result<(Text, Text), EnvelopeFault>
    ensures ok { IfOk result (λ names. header_names octets.now ≡ Some names) }
    ensures err { IfErr result (λ fault. (fault ≡ EnvelopeFault.OutOfMemory)
        ⊎ ((fault ≡ EnvelopeFault.BadHeader) × (header_names octets.now ≡ None))) }
{
    let header = read_header(alloc, octets)?;
    let names = names_in(alloc, &header);
    drop(header);
    names
}

/// The id and the type that a header names which was read as JSON.
fn names_in(alloc: Global, header: &Value) -> Result<(Text, Text), EnvelopeFault>
    ensures ok { IfOk result (λ names. names_of (view header.now) ≡ Some names) }
    ensures err { IfErr result (λ fault. (fault ≡ EnvelopeFault.OutOfMemory)
        ⊎ ((fault ≡ EnvelopeFault.BadHeader) × (names_of (view header.now) ≡ None))) }
{
    let Some(id) = text_under(header, "msg_id") else {
        return Err(EnvelopeFault::BadHeader);
    };
    let Some(kind) = text_under(header, "msg_type") else {
        return Err(EnvelopeFault::BadHeader);
    };
    let id = String::from_str(alloc, id)?;
    let kind = String::from_str(alloc, kind)?;
    Ok((Text::new(id), Text::new(kind)))
}

/// Reads the octets of a header as JSON.
fn read_header(alloc: Global, octets: &[u8]) -> Result<Value, EnvelopeFault>
    ensures ok { IfOk result (λ header. header_names octets.now ≡ names_of (view header)) }
    ensures err { IfErr result (λ fault. (fault ≡ EnvelopeFault.OutOfMemory)
        ⊎ ((fault ≡ EnvelopeFault.BadHeader) × (header_names octets.now ≡ None))) }
{
    match Value::from_slice(alloc, octets) {
        Ok(header) => Ok(header),
        Err(refusal) if refusal.is_memory() => Err(EnvelopeFault::OutOfMemory),
        Err(_) => Err(EnvelopeFault::BadHeader),
    }
}

/// The text under a key of a header, if there is one.
fn text_under<'v>(header: &'v Value, key: &str) -> Option<&'v str>
    ensures { option_map (λ text. text.now) result ≡ text_at key.now (view header.now) }
{
    header.get(key).and_then(Value::as_str)
}
