//! Connection files, read.

use crate::spelling::{Plain, octets_of};
use conn_file::{ConnFault, Connection, read_connection};
use std::alloc::{AllocError, Global};
use std::str;

/// The fields of a connection file as a server writes it, each with its value.
const FIELDS: &[(&str, &str)] = &[
    ("transport", r#""tcp""#),
    ("ip", r#""127.0.0.1""#),
    ("shell_port", "1"),
    ("iopub_port", "65535"),
    ("control_port", "50160"),
    ("hb_port", "42540"),
    ("signature_scheme", r#""hmac-sha256""#),
    ("key", r#""a0436f6c-1916-498b-8eb9-e81ab9368e84""#),
];

/// The number and the words of a fault.
pub(crate) fn told(alloc: Global, fault: ConnFault) -> Result<String, AllocError> {
    format!(in alloc; "{} {fault}", fault.number())
}

/// What a connection file is read as.
pub(crate) fn file(alloc: Global, text: &str) -> Result<String, AllocError> {
    let octets = octets_of(alloc, text)?;
    read(alloc, str::from_utf8(&octets).unwrap_or("no text"))
}

/// What a connection file as a server writes it is read as, with other values for fields. One that has no value is left
/// out.
pub(crate) fn fields(alloc: Global, words: &str) -> Result<String, AllocError> {
    let mut text = String::new(alloc);
    match add_fields(&mut text, words) {
        Ok(()) => read(alloc, text.as_str()),
        Err(refused) => Err(refused),
    }
}

/// Adds the text of that file.
fn add_fields(text: &mut String, words: &str) -> Result<(), AllocError> {
    text.push_str(r#"{"kernel_name":"sharith","stdin_port":0"#)?;
    for (name, usual) in FIELDS {
        add_field(text, name, value_in(words, name).unwrap_or(*usual))?;
    }
    text.push_str("}")
}

/// Adds a field, if it has a value.
fn add_field(text: &mut String, name: &str, value: &str) -> Result<(), AllocError> {
    if value.is_empty() {
        return Ok(());
    }
    text.push_str(",\"")?;
    text.push_str(name)?;
    text.push_str("\":")?;
    text.push_str(value)
}

/// The value that words give to a field, if one does.
fn value_in<'a>(words: &'a str, name: &str) -> Option<&'a str> {
    for word in words.split_whitespace() {
        let (field, value) = word.split_once('=').unwrap_or((word, ""));
        if field == name {
            return Some(value);
        }
    }
    None
}

/// What the text of a connection file is read as: the address, the ports and the key, or the fault's number and words.
fn read(alloc: Global, text: &str) -> Result<String, AllocError> {
    match read_connection(alloc, text) {
        Ok(connection) => {
            let told = all_told(alloc, &connection);
            drop(connection);
            told
        }
        Err(fault) => told(alloc, fault),
    }
}

/// The fields of a connection.
fn all_told(alloc: Global, connection: &Connection) -> Result<String, AllocError> {
    let (shell, iopub) = (connection.shell_port, connection.iopub_port);
    let (control, hb) = (connection.control_port, connection.hb_port);
    let key = str::from_utf8(connection.key.as_slice()).unwrap_or("no text");
    let (ip, key) = (Plain(connection.ip.as_str()), Plain(key));
    format!(in alloc; "<{ip}> {shell} {iopub} {control} {hb} <{key}>")
}
