//! What a person is shown of rows: a table, for a console and for a page.

ghost use Rattle.std.specs.Prelude.{◌≡◌, ◌++◌, ◌∷◌, ◌<◌, codes, flat_map, length, map, take, IfOk, OnOk};
ghost use Rattle.std.specs.Str.Lossy.{utf8_lossy};
ghost use Rattle.sqlite_value.specs.Order.{column};
ghost use Rattle.sqlite_value.specs.Value.{owned};
ghost use Rattle.sql_cells.specs.Tables.{cut_note, html_cell, html_head, html_name, html_note, html_row, html_table};
ghost use Rattle.sql_cells.specs.Tables.{most_rows, text_note, text_table, texts};
ghost use Rattle.sql_cells.specs.Values.{escaped, first_value, value_html, value_text};

use crate::tables::push_aligned;
use crate::values::{push_escaped, push_html_value, push_value};
use listed::{Octets, Row, Text};
use sqlite::Row as Values;
use sqlite::types::{Bytes, ValueRef};
use std::alloc::{AllocError, Global};

/// No more rows than this are shown of a table.
const MOST_ROWS: usize = 1000;

/// The rows that are shown.
fn shown(rows: &[Values]) -> &[Values]
    ensures { result.now ≡ take most_rows rows.now }
{
    if rows.len() <= MOST_ROWS {
        rows
    } else {
        &rows[..MOST_ROWS]
    }
}

/// A value of a row.
fn value(row: &Values, at: usize) -> ValueRef<'_>
    requires { at < length row.now }
    ensures { owned result ≡ column row.now at }
{
    match row.get_ref(at) {
        Ok(value) => value,
        Err(_) => unreachable!(),
    }
}

/// The text of a value.
fn value_octets(alloc: Global, row: &Values, at: usize) -> Result<Octets, AllocError>
    requires { at < length row.now }
    ensures { IfOk result (λ text. text ≡ value_text (column row.now at)) }
{
    let mut text = Vec::new(alloc);
    push_value(&mut text, value(row, at))?;
    Ok(Octets::new(text))
}

/// Adds the first value of a row, if there is one.
pub(crate) fn push_first_value(text: &mut Vec<u8>, row: &Values) -> Result<(), AllocError>
    ensures { OnOk result (text.new.items ≡ text.old.items ++ first_value row.now) }
{
    if row.column_count() == 0 {
        return Ok(());
    }
    push_value(text, value(row, 0))
}

/// The texts of a row's values.
fn row_texts(alloc: Global, row: &Values) -> Result<Row<Octets>, AllocError>
    ensures { IfOk result (λ cells. cells ≡ texts row.now) }
{
    let columns = row.column_count();
    let mut cells = Vec::new(alloc);
    'cells: for at in 0..columns {
        cells.push(value_octets(alloc, row, at)?)?;
    }
    Ok(Row::new(cells))
}

/// The names of columns as a row.
fn name_texts(alloc: Global, names: &[Bytes]) -> Result<Row<Octets>, AllocError>
    ensures { IfOk result (λ cells. cells ≡ names.now) }
{
    let mut cells = Vec::new(alloc);
    for name in names {
        cells.push(Octets::new(Vec::from_slice(alloc, name.as_slice())?))?;
    }
    Ok(Row::new(cells))
}

/// The texts of a table, with the names as its first row.
fn table_texts(
    alloc: Global,
    names: &[Bytes],
    rows: &[Values],
) -> Result<Vec<Row<Octets>>, AllocError>
    ensures { IfOk result (λ table. table.items ≡ names.now ∷ map texts rows.now) }
{
    let mut table = Vec::new(alloc);
    table.push(name_texts(alloc, names)?)?;
    for row in rows {
        table.push(row_texts(alloc, row)?)?;
    }
    Ok(table)
}

/// What is said of rows that aren't shown.
fn push_note(text: &mut Vec<u8>, alloc: Global, count: usize) -> Result<(), AllocError>
    ensures { OnOk result (text.new.items ≡ text.old.items ++ cut_note count) }
{
    let note = format!(in alloc; "The first {MOST_ROWS} of {count} rows.")?;
    text.extend_from_slice(note.as_bytes())
}

/// Adds the line below a table that was cut.
fn push_text_note(text: &mut Vec<u8>, alloc: Global, count: usize) -> Result<(), AllocError>
    ensures { OnOk result (text.new.items ≡ text.old.items ++ text_note count) }
{
    if MOST_ROWS < count {
        push_note(text, alloc, count)?;
        text.extend_from_slice(b"\n")?;
    }
    Ok(())
}

/// Adds the paragraph below a table that was cut.
fn push_html_note(html: &mut Vec<u8>, alloc: Global, count: usize) -> Result<(), AllocError>
    ensures { OnOk result (html.new.items ≡ html.old.items ++ html_note count) }
{
    if MOST_ROWS < count {
        html.extend_from_slice(b"<p>")?;
        push_note(html, alloc, count)?;
        html.extend_from_slice(b"</p>\n")?;
    }
    Ok(())
}

/// A text of octets, each part of which that is no UTF-8 is replaced.
pub(crate) fn lossy(alloc: Global, octets: &[u8]) -> Result<Text, AllocError>
    ensures { IfOk result (λ text. text ≡ utf8_lossy octets.now) }
{
    let text = String::from_utf8_lossy(alloc, octets)?;
    Ok(Text::new(text))
}

/// Rows for a console.
pub(crate) fn text_table(
    alloc: Global,
    names: &[Bytes],
    rows: &[Values],
) -> Result<Text, AllocError>
    ensures { IfOk result (λ text. text ≡ utf8_lossy (text_table names.now rows.now)) }
{
    let mut text = Vec::new(alloc);
    let table = table_texts(alloc, names, shown(rows))?;
    push_aligned(alloc, &mut text, table.as_slice())?;
    push_text_note(&mut text, alloc, rows.len())?;
    lossy(alloc, text.as_slice())
}

/// Adds the names in the head of a table.
fn push_names(html: &mut Vec<u8>, names: &[Bytes]) -> Result<(), AllocError>
    ensures { OnOk result (html.new.items ≡ html.old.items ++ flat_map html_name names.now) }
{
    for name in names {
        html.extend_from_slice(b"<th>")?;
        push_escaped(html, name.as_slice())?;
        html.extend_from_slice(b"</th>")?;
    }
    Ok(())
}

/// Adds a value in the body of a table.
fn push_cell(html: &mut Vec<u8>, row: &Values, at: usize) -> Result<(), AllocError>
    requires { at < length row.now }
    ensures { OnOk result (html.new.items ≡ html.old.items ++ html_cell (value_html (column row.now at))) }
{
    html.extend_from_slice(b"<td>")?;
    push_html_value(html, value(row, at))?;
    html.extend_from_slice(b"</td>")
}

/// Adds the values of a row.
fn push_cells(html: &mut Vec<u8>, row: &Values) -> Result<(), AllocError>
    ensures { OnOk result (html.new.items
        ≡ html.old.items ++ flat_map (λ value. html_cell (value_html value)) row.now) }
{
    let columns = row.column_count();
    'cells: for at in 0..columns {
        push_cell(html, row, at)?;
    }
    Ok(())
}

/// Adds rows of the body.
fn push_rows(html: &mut Vec<u8>, rows: &[Values]) -> Result<(), AllocError>
    ensures { OnOk result (html.new.items ≡ html.old.items ++ flat_map html_row rows.now) }
{
    for row in rows {
        html.extend_from_slice(b"<tr>")?;
        push_cells(html, row)?;
        html.extend_from_slice(b"</tr>\n")?;
    }
    Ok(())
}

/// Adds how a table begins.
fn push_html_head(html: &mut Vec<u8>) -> Result<(), AllocError>
    ensures { OnOk result (html.new.items ≡ html.old.items ++ html_head) }
{
    html.extend_from_slice(b"<table class=\"tex2jax_ignore mathjax_ignore\">\n<thead>\n<tr>")
}

/// Rows for a page.
pub(crate) fn html_table(
    alloc: Global,
    names: &[Bytes],
    rows: &[Values],
) -> Result<Text, AllocError>
    ensures { IfOk result (λ html. html ≡ utf8_lossy (html_table names.now rows.now)) }
{
    let mut html = Vec::new(alloc);
    push_html_head(&mut html)?;
    push_names(&mut html, names)?;
    html.extend_from_slice(b"</tr>\n</thead>\n<tbody>\n")?;
    push_rows(&mut html, shown(rows))?;
    html.extend_from_slice(b"</tbody>\n</table>\n")?;
    push_html_note(&mut html, alloc, rows.len())?;
    lossy(alloc, html.as_slice())
}
