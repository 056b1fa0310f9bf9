//! The fields of a content: each is looked up once, and texts are moved out of it.

ghost use Rattle.std.specs.Prelude.{◌≡◌, [], option_map, IfOk, IfSome};
ghost use Rattle.jmsg_types.specs.Fault.{IsAnswer, IsAnswerOrMemory};
ghost use Rattle.jmsg_types.specs.Field.{KeepsOthers, NamesRise, as_level, as_text, as_texts, as_truth, as_whole};
ghost use Rattle.jmsg_types.specs.Field.{code_points, optional, optional_cursor, required, texts_of};
ghost use Rattle.serde_json.specs.Find.{as_object, get_member};
ghost use Rattle.serde_json.specs.View.{view, members_view};

use crate::ContentFault;
use listed::{Row, Text};
use serde_json::{Map, Value};
use std::alloc::{AllocError, Global};

/// The member of this name.
fn member<'m>(members: &'m Map<String, Value>, name: &str) -> Option<&'m Value>
    ensures { option_map (λ value. view value.now) result
        ≡ get_member name.now (members_view members.now.entries) }
{
    members.get(name)
}

/// Takes the member of this name out of the members, and leaves the others.
fn take_member(members: &mut Map<String, Value>, name: &str) -> Option<Value>
    ensures found { option_map view result
        ≡ get_member name.now (members_view members.old.entries) }
    ensures others { KeepsOthers name.now (members_view members.old.entries)
        (members_view members.new.entries) }
{
    members.remove(name)
}

/// The text that a value is.
fn into_text(value: Value) -> Option<Text>
    ensures { result ≡ as_text (view value) }
{
    match value {
        Value::String(text) => Some(Text::new(text)),
        _ => None,
    }
}

/// The members of the object that a value is.
pub(crate) fn into_members(value: Value) -> Option<Map<String, Value>>
    ensures { option_map (λ members. members_view members.entries) result ≡ as_object (view value) }
{
    match value {
        Value::Object(members) => Some(members),
        _ => None,
    }
}

/// Takes a text out of the members, which has to be there.
pub(crate) fn take_text(
    members: &mut Map<String, Value>,
    name: &'static str,
) -> Result<Text, ContentFault>
    ensures answer { IsAnswer result
        (required as_text name.now (members_view members.old.entries)) }
    ensures others { KeepsOthers name.now (members_view members.old.entries)
        (members_view members.new.entries) }
{
    match take_member(members, name) {
        Some(value) => into_text(value).ok_or(ContentFault::Field(name)),
        None => Err(ContentFault::Field(name)),
    }
}

/// A truth among the members, or its default if it is missing.
pub(crate) fn truth_field(
    members: &Map<String, Value>,
    name: &'static str,
    default: bool,
) -> Result<bool, ContentFault>
    ensures { IsAnswer result
        (optional as_truth default name.now (members_view members.now.entries)) }
{
    match member(members, name) {
        None => Ok(default),
        Some(value) => value.as_bool().ok_or(ContentFault::Field(name)),
    }
}

/// A whole number among the members, or its default if it is missing.
fn whole_field(
    members: &Map<String, Value>,
    name: &'static str,
    default: u64,
) -> Result<u64, ContentFault>
    ensures { IsAnswer result
        (optional as_whole default name.now (members_view members.now.entries)) }
{
    match member(members, name) {
        None => Ok(default),
        Some(value) => value.as_u64().ok_or(ContentFault::Field(name)),
    }
}

/// How many code points a text has.
fn code_points(text: &str) -> u64
    ensures { result ≡ code_points text.now }
{
    text.chars().count() as u64
}

/// A cursor in a code among the members. It is at most at the code's end, and is there if it is missing.
pub(crate) fn cursor_field(
    members: &Map<String, Value>,
    name: &'static str,
    code: &str,
) -> Result<u64, ContentFault>
    ensures { IsAnswer result
        (optional_cursor code.now name.now (members_view members.now.entries)) }
{
    let end = code_points(code);
    let cursor = whole_field(members, name, end)?;
    Ok(cursor.min(end))
}

/// A level of detail among the members, which is 0 or 1, and 0 if it is missing.
pub(crate) fn level_field(
    members: &Map<String, Value>,
    name: &'static str,
) -> Result<u64, ContentFault>
    ensures { IsAnswer result
        (optional as_level 0 name.now (members_view members.now.entries)) }
{
    match member(members, name) {
        None => Ok(0),
        Some(value) => match value.as_u64() {
            Some(level) if level <= 1 => Ok(level),
            _ => Err(ContentFault::Field(name)),
        },
    }
}

/// Takes an object of texts out of the members, by the order of the names' octets; none if it is missing.
pub(crate) fn take_texts(
    alloc: Global,
    members: &mut Map<String, Value>,
    name: &'static str,
) -> Result<Row<(Text, Text)>, ContentFault>
    ensures answer { IsAnswerOrMemory result
        (optional as_texts [] name.now (members_view members.old.entries)) }
    ensures ordered { IfOk result NamesRise }
    ensures others { KeepsOthers name.now (members_view members.old.entries)
        (members_view members.new.entries) }
{
    let Some(value) = take_member(members, name) else {
        return Ok(Row::new(Vec::new(alloc)));
    };
    let Some(texts) = into_members(value) else {
        return Err(ContentFault::Field(name));
    };
    owned_texts(alloc, texts)?.ok_or(ContentFault::Field(name))
}

/// The names and texts of an object's members, if all are texts.
fn owned_texts(
    alloc: Global,
    members: Map<String, Value>,
) -> Result<Option<Row<(Text, Text)>>, AllocError>
    ensures value { IfOk result (λ texts. texts ≡ texts_of (members_view members.entries)) }
    ensures ordered { IfOk result (λ texts. IfSome texts NamesRise) }
{
    let mut texts = Vec::with_capacity(alloc, members.len())?;
    for (name, value) in members {
        let Some(text) = into_text(value) else {
            return Ok(None);
        };
        texts.push((Text::new(name), text))?;
    }
    Ok(Some(Row::new(texts)))
}
