//! How the values of a row are written.

ghost use Rattle.std.specs.Prelude.{◌≡◌, ◌++◌, ◌<◌, codes, flat_map, OnOk};
ghost use Rattle.sqlite_value.specs.Value.{owned};
ghost use Rattle.sql_cells.specs.Values.{escaped, escaped_octet, hex_digit, hex_octet, value_html, value_text};

use sqlite::types::ValueRef;
use sqlite_sql::spelling::{of_float, of_integer};
use std::alloc::AllocError;

/// A digit to the base 16.
fn hex_digit(n: u8) -> u8
    requires { n < 16 }
    ensures { result ≡ hex_digit n }
{
    if n < 10 { n + b'0' } else { n + 55 }
}

/// Adds the two digits of an octet.
fn push_hex(text: &mut Vec<u8>, octet: u8) -> Result<(), AllocError>
    ensures { OnOk result (text.new.items ≡ text.old.items ++ hex_octet octet) }
{
    text.push(hex_digit(octet / 16))?;
    text.push(hex_digit(octet % 16))?;
    Ok(())
}

/// Adds the digits of octets.
fn push_hexes(text: &mut Vec<u8>, octets: &[u8]) -> Result<(), AllocError>
    ensures { OnOk result (text.new.items ≡ text.old.items ++ flat_map hex_octet octets.now) }
{
    for octet in octets {
        push_hex(text, *octet)?;
    }
    Ok(())
}

/// Adds a blob, as a literal of SQL.
fn push_blob(text: &mut Vec<u8>, blob: &[u8]) -> Result<(), AllocError>
    ensures { OnOk result (text.new.items ≡ text.old.items ++ (codes "x'" ++ flat_map hex_octet blob.now
        ++ codes "'")) }
{
    text.extend_from_slice(b"x'")?;
    push_hexes(text, blob)?;
    text.extend_from_slice(b"'")
}

/// Adds a value's text.
pub(crate) fn push_value(text: &mut Vec<u8>, value: ValueRef<'_>) -> Result<(), AllocError>
    ensures { OnOk result (text.new.items ≡ text.old.items ++ value_text (owned value.entry)) }
{
    match value {
        ValueRef::Null => text.extend_from_slice(b"[NULL]"),
        ValueRef::Int(n) => text.extend_from_slice(of_integer(n).as_slice()),
        ValueRef::Real(x) => text.extend_from_slice(of_float(x).as_slice()),
        ValueRef::Text(bytes) => text.extend_from_slice(bytes),
        ValueRef::Blob(bytes) => push_blob(text, bytes),
    }
}

/// Adds an octet as HTML has it.
fn push_escaped_octet(html: &mut Vec<u8>, octet: u8) -> Result<(), AllocError>
    ensures { OnOk result (html.new.items ≡ html.old.items ++ escaped_octet octet) }
{
    match octet {
        b'&' => html.extend_from_slice(b"&amp;"),
        b'<' => html.extend_from_slice(b"&lt;"),
        b'>' => html.extend_from_slice(b"&gt;"),
        b'"' => html.extend_from_slice(b"&quot;"),
        _ => {
            html.push(octet)?;
            Ok(())
        }
    }
}

/// Adds a text as HTML has it.
pub(crate) fn push_escaped(html: &mut Vec<u8>, text: &[u8]) -> Result<(), AllocError>
    ensures { OnOk result (html.new.items ≡ html.old.items ++ escaped text.now) }
{
    for octet in text {
        push_escaped_octet(html, *octet)?;
    }
    Ok(())
}

/// Adds a value as HTML.
pub(crate) fn push_html_value(html: &mut Vec<u8>, value: ValueRef<'_>) -> Result<(), AllocError>
    ensures { OnOk result (html.new.items ≡ html.old.items ++ value_html (owned value.entry)) }
{
    match value {
        ValueRef::Null => html.extend_from_slice(b"<em>NULL</em>"),
        ValueRef::Text(bytes) => push_escaped(html, bytes),
        ValueRef::Int(_) | ValueRef::Real(_) | ValueRef::Blob(_) => push_value(html, value),
    }
}
