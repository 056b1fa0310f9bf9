//! Lines that begin with a dot.

ghost use Rattle.std.specs.Prelude.{◌≡◌, ◌≤◌, ◌++◌, flat_map, length, IfOk, OnOk};
ghost use Rattle.std.specs.List.{prefix_len};
ghost use Rattle.std.specs.Str.Lossy.{utf8_lossy};
ghost use Rattle.sql_cells.specs.Dots.{dot_of, first_word, is_inner, listed, listed_row, listed_rows};
ghost use Rattle.sql_cells.specs.Dots.{number, number_from, past_blanks, quoted_octet, schema_of, schema_query};
ghost use Rattle.sql_cells.specs.Dots.{second_word};
ghost use Rattle.sql_cells.specs.Parts.{is_blank};

use crate::fault::owned;
use crate::gaps::is_blank;
use crate::rows::{lossy, push_first_value};
use crate::shown::only;
use crate::statement::Came;
use interp_core::Output;
use listed::{Row, Text};
use sqlite::Row as Values;
use std::alloc::{AllocError, Global};

/// A number from which on none has a further digit.
const MOST_LIMIT: u64 = 1_000_000_000_000_000;

/// The query of the names of tables and views, without those that SQLite keeps for itself.
pub(crate) const TABLE_NAMES: &str =
    "SELECT name FROM sqlite_schema WHERE type IN ('table', 'view') AND name NOT LIKE 'sqlite_%' ORDER BY name";

/// The query of what was made.
const EACH_SCHEMA: &str = "SELECT sql || ';' FROM sqlite_schema WHERE sql IS NOT NULL";

/// The query of what was made under a name, up to the name.
const SCHEMA_OF: &str =
    "SELECT sql || ';' FROM sqlite_schema WHERE sql IS NOT NULL AND lower(tbl_name) = lower('";

/// What is said of the dot words.
pub(crate) const HELP: &str = "\
.help            these lines
.limit N         lets each query of this session take N steps, one or more for each row
.schema [TABLE]  the statements that made the tables, or one of them
.tables          the names of tables and views
Anything else is SQL of sqlite. Each statement ends with a semicolon.
";

/// What a line that begins with a dot asks for.
#[derive(Clone, Copy)]
pub(crate) enum Dot {
    /// What dot words there are.
    Help,
    /// The names of tables and views.
    Tables,
    /// The statements that made the tables.
    Schema,
    /// Another limit on steps.
    Limit,
    /// Nothing that is known.
    Unknown,
}

/// How long the word is that a text begins with.
fn word_len(text: &[u8]) -> usize
    ensures value { result ≡ prefix_len is_inner text.now }
    ensures within { result ≤ length text.now }
{
    let mut len = 0;
    while len < text.len() && !is_blank(text[len]) {
        len += 1;
    }
    len
}

/// How many blanks a text begins with.
fn blanks_len(text: &[u8]) -> usize
    ensures value { result ≡ prefix_len is_blank text.now }
    ensures within { result ≤ length text.now }
{
    let mut len = 0;
    while len < text.len() && is_blank(text[len]) {
        len += 1;
    }
    len
}

/// The word that a text begins with.
pub(crate) fn first_word(text: &[u8]) -> &[u8]
    ensures { result.now ≡ first_word text.now }
{
    &text[..word_len(text)]
}

/// What a text has after the blanks that it begins with.
fn past_blanks(text: &[u8]) -> &[u8]
    ensures { result.now ≡ past_blanks text.now }
{
    &text[blanks_len(text)..]
}

/// The word after the first one, if there is one.
pub(crate) fn second_word(text: &[u8]) -> &[u8]
    ensures { result.now ≡ second_word text.now }
{
    first_word(past_blanks(&text[word_len(text)..]))
}

/// What the first word of a line asks for.
pub(crate) fn dot_of(word: &[u8]) -> Dot
    ensures { result ≡ dot_of word.now }
{
    if word == b".help".as_slice() {
        Dot::Help
    } else if word == b".tables".as_slice() {
        Dot::Tables
    } else if word == b".schema".as_slice() {
        Dot::Schema
    } else if word == b".limit".as_slice() {
        Dot::Limit
    } else {
        Dot::Unknown
    }
}

/// The number that a word is.
pub(crate) fn number(word: &[u8]) -> Option<u64>
    ensures { result ≡ number word.now }
{
    if word.is_empty() {
        return None;
    }
    let mut number = 0;
    for octet in word {
        if !(octet.is_ascii_digit() && number < MOST_LIMIT) {
            return None;
        }
        number = number * 10 + u64::from(*octet - b'0');
    }
    Some(number)
}

/// Adds an octet of a name within a string of SQL.
fn push_quoted_octet(sql: &mut Vec<u8>, octet: u8) -> Result<(), AllocError>
    ensures { OnOk result (sql.new.items ≡ sql.old.items ++ quoted_octet octet) }
{
    if octet == b'\'' {
        return sql.extend_from_slice(b"''");
    }
    sql.push(octet)?;
    Ok(())
}

/// Adds a name within a string of SQL.
fn push_quoted(sql: &mut Vec<u8>, name: &[u8]) -> Result<(), AllocError>
    ensures { OnOk result (sql.new.items ≡ sql.old.items ++ flat_map quoted_octet name.now) }
{
    for octet in name {
        push_quoted_octet(sql, *octet)?;
    }
    Ok(())
}

/// The query of what was made under a name.
fn schema_of(alloc: Global, name: &[u8]) -> Result<Text, AllocError>
    ensures { IfOk result (λ sql. sql ≡ schema_of name.now) }
{
    let mut sql = Vec::from_slice(alloc, SCHEMA_OF.as_bytes())?;
    push_quoted(&mut sql, name)?;
    sql.extend_from_slice(b"')")?;
    lossy(alloc, sql.as_slice())
}

/// The query of what was made, under a name if there is one.
pub(crate) fn schema_query(alloc: Global, name: &[u8]) -> Result<Text, AllocError>
    ensures { IfOk result (λ sql. sql ≡ schema_query name.now) }
{
    match name {
        [] => owned(alloc, EACH_SCHEMA),
        [_, ..] => schema_of(alloc, name),
    }
}

/// Adds a line that has a row's first value.
fn push_listed_row(text: &mut Vec<u8>, row: &Values) -> Result<(), AllocError>
    ensures { OnOk result (text.new.items ≡ text.old.items ++ listed_row row.now) }
{
    push_first_value(text, row)?;
    text.extend_from_slice(b"\n")
}

/// The lines of rows.
fn listed_text(alloc: Global, rows: &[Values]) -> Result<Text, AllocError>
    ensures { IfOk result (λ text. text ≡ utf8_lossy (flat_map listed_row rows.now)) }
{
    let mut text = Vec::new(alloc);
    for row in rows {
        push_listed_row(&mut text, row)?;
    }
    lossy(alloc, text.as_slice())
}

/// A line for each row, if there is one.
fn listed_rows(alloc: Global, rows: &[Values]) -> Result<Row<Output>, AllocError>
    ensures { IfOk result (λ outputs. outputs ≡ listed_rows rows.now) }
{
    if rows.is_empty() {
        return Ok(Row::new(Vec::new(alloc)));
    }
    let text = listed_text(alloc, rows)?;
    only(alloc, Output::Stdout(text))
}

/// What is shown of a query that a line with a dot stands for.
pub(crate) fn listed(alloc: Global, came: &Came) -> Result<Row<Output>, AllocError>
    ensures { IfOk result (λ outputs. outputs ≡ listed came.now) }
{
    match came {
        Came::Rows(_, rows) => listed_rows(alloc, rows),
        Came::Changed(_) => Ok(Row::new(Vec::new(alloc))),
    }
}
