//! Parts that contents share.

ghost use Rattle.std.specs.Prelude.{◌≡◌, IfOk, OnOk, map, string_bytes};
ghost use Rattle.jmsg_types.specs.Content.{error_data, plain_data, texts_data, traceback_data, traceback_line};
ghost use Rattle.jmsg_types.specs.Content.{with_texts};
ghost use Rattle.serde_json.specs.Data.{no_members, object};
ghost use Rattle.serde_json.specs.View.{members_view, view};

use listed::Text;
use serde_json::{Map, Value, json};
use std::alloc::{AllocError, Global};

/// Puts texts among the members of an object, each under its key.
pub(crate) fn put_texts(
    alloc: Global,
    members: &mut Map<String, Value>,
    texts: &[(&str, &str)],
) -> Result<(), AllocError>
    ensures { OnOk result (members_view members.new.entries
        ≡ with_texts (map (λ text. (text.0.now, text.1.now)) texts.now) (members_view members.old.entries)) }
{
    for (key, text) in texts {
        let value = Value::try_from_str(alloc, text)?;
        serde_json::put(members, alloc, key, value)?;
    }
    Ok(())
}

/// An object of texts, each under its key.
pub(crate) fn object_of_texts(alloc: Global, texts: &[(&str, &str)]) -> Result<Value, AllocError>
    ensures { IfOk result (λ value. view value
        ≡ object (with_texts (map (λ text. (text.0.now, text.1.now)) texts.now) no_members)) }
{
    let mut members = Map::new(alloc);
    put_texts(alloc, &mut members, texts)?;
    Ok(Value::Object(members))
}

/// A result for display, as plain text.
pub(crate) fn plain_value(alloc: Global, text: &str) -> Result<Value, AllocError>
    ensures { IfOk result (λ value. view value ≡ plain_data text.now) }
{
    json!(in alloc; {"text/plain": text})
}

/// The one line of an error's traceback.
pub(crate) fn traceback_line(alloc: Global, ename: &str, evalue: &str) -> Result<String, AllocError>
    ensures { IfOk result (λ line. string_bytes line ≡ traceback_line ename.now evalue.now) }
{
    format!(in alloc; "{ename}: {evalue}")
}

/// An error's traceback: a list of its one line.
pub(crate) fn traceback_value(alloc: Global, ename: &str, evalue: &str) -> Result<Value, AllocError>
    ensures { IfOk result (λ value. view value ≡ traceback_data ename.now evalue.now) }
{
    let line = traceback_line(alloc, ename, evalue)?;
    json!(in alloc; [line])
}

/// An error that a reply tells, or one of its values.
pub(crate) fn error_value<'t>(
    alloc: Global,
    ename: &'t str,
    evalue: &'t str,
) -> Result<Value, AllocError>
    ensures { IfOk result (λ value. view value ≡ error_data ename.now evalue.now) }
{
    let traceback = traceback_value(alloc, ename, evalue)?;
    let mut error = Map::new(alloc);
    serde_json::put(&mut error, alloc, "traceback", traceback)?;
    let texts = [("ename", ename), ("evalue", evalue), ("status", "error")];
    put_texts(alloc, &mut error, &texts)?;
    Ok(Value::Object(error))
}

/// Texts in a list.
pub(crate) fn texts_value(alloc: Global, texts: &[Text]) -> Result<Value, AllocError>
    ensures { IfOk result (λ value. view value ≡ texts_data texts.now) }
{
    let mut items = Vec::with_capacity(alloc, texts.len())?;
    for text in texts {
        items.push(Value::try_from_str(alloc, text.as_str())?)?;
    }
    Ok(Value::Array(items))
}
