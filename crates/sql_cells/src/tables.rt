//! A table of texts, as a console shows it.

ghost use Rattle.std.specs.Prelude.{◌≡◌, ◌≤◌, ◌++◌, ◌∷◌, codes, flat_map, length, replicate, IfOk, OnOk};
ghost use Rattle.sql_cells.specs.Tables.{aligned, boxed, boxes, cell, dashes, line, lines, printed, rule, widest};
ghost use Rattle.sql_cells.specs.Tables.{printed_after};
ghost use Rattle.sql_cells.specs.Tables.{width};
ghost use Rattle.sql_cells.specs.Tables.{goes_on, widths_from};

use listed::{Octets, Row};
use std::alloc::{AllocError, Global};

/// No column is made wider than this for the sake of its widest cell.
const MOST_WIDTH: usize = 200;

/// Whether an octet goes on with a character of UTF-8.
pub(crate) fn goes_on(octet: u8) -> bool
    ensures { result ≡ goes_on octet }
{
    octet >= 128 && octet < 192
}

/// How many characters a text has.
pub(crate) fn width(text: &[u8]) -> usize
    ensures value { result ≡ width text.now }
    ensures bound { result ≤ length text.now }
{
    let mut count = 0;
    for octet in text {
        if !goes_on(*octet) {
            count += 1;
        }
    }
    count
}

/// The cell of a row in a column.
fn cell(cells: &[Octets], at: usize) -> &[u8]
    ensures { result.now ≡ cell cells.now at }
{
    if at < cells.len() {
        cells[at].as_slice()
    } else {
        &[]
    }
}

/// The width of the widest cell of a column.
fn widest(rows: &[Row<Octets>], at: usize) -> usize
    ensures { result ≡ widest at rows.now }
{
    let mut most = 0;
    for cells in rows {
        most = width(cell(cells.as_slice(), at)).max(most);
    }
    most
}

/// The widths of columns.
fn widths(alloc: Global, rows: &[Row<Octets>], columns: usize) -> Result<Vec<usize>, AllocError>
    ensures { IfOk result (λ widths. widths.items ≡ widths_from rows.now 0 columns) }
{
    let mut widths = Vec::new(alloc);
    'columns: for at in 0..columns {
        widths.push(widest(rows, at).min(MOST_WIDTH))?;
    }
    Ok(widths)
}

/// Adds an octet so many times.
fn push_times(text: &mut Vec<u8>, octet: u8, times: usize) -> Result<(), AllocError>
    ensures { OnOk result (text.new.items ≡ text.old.items ++ replicate times octet) }
{
    'times: for at in 0..times {
        text.push(octet)?;
    }
    Ok(())
}

/// An octet of a line, after another one: a control character is shown as a blank.
fn printed_after(previous: u8, octet: u8) -> u8
    ensures { result ≡ printed_after previous octet }
{
    if octet < 32 || octet == 127 {
        b' '
    } else if previous == 194 && octet >= 128 && octet < 160 {
        160
    } else {
        octet
    }
}

/// Adds a text as a part of a line.
pub(crate) fn push_printed(text: &mut Vec<u8>, cell: &[u8]) -> Result<(), AllocError>
    ensures { OnOk result (text.new.items ≡ text.old.items ++ printed 0 cell.now) }
{
    let mut previous = 0;
    for octet in cell {
        text.push(printed_after(previous, *octet))?;
        previous = *octet;
    }
    Ok(())
}

/// Adds a cell between its bars.
fn push_boxed(text: &mut Vec<u8>, wide: usize, cell: &[u8]) -> Result<(), AllocError>
    ensures { OnOk result (text.new.items ≡ text.old.items ++ boxed wide cell.now) }
{
    text.extend_from_slice(b" ")?;
    push_printed(text, cell)?;
    push_times(text, b' ', wide.saturating_sub(width(cell)))?;
    text.extend_from_slice(b" |")
}

/// Adds the cells of a row.
fn push_boxes(text: &mut Vec<u8>, widths: &[usize], cells: &[Octets]) -> Result<(), AllocError>
    ensures { OnOk result (text.new.items ≡ text.old.items ++ boxes cells.now 0 widths.now) }
{
    for (at, wide) in widths.iter().enumerate() {
        push_boxed(text, *wide, cell(cells, at))?;
    }
    Ok(())
}

/// Adds the line of a row.
fn push_line(text: &mut Vec<u8>, widths: &[usize], cells: &[Octets]) -> Result<(), AllocError>
    ensures { OnOk result (text.new.items ≡ text.old.items ++ line widths.now cells.now) }
{
    text.extend_from_slice(b"|")?;
    push_boxes(text, widths, cells)?;
    text.extend_from_slice(b"\n")
}

/// Adds the part of a rule below a column.
fn push_dashes(text: &mut Vec<u8>, wide: usize) -> Result<(), AllocError>
    ensures { OnOk result (text.new.items ≡ text.old.items ++ dashes wide) }
{
    text.extend_from_slice(b"-")?;
    push_times(text, b'-', wide)?;
    text.extend_from_slice(b"-+")
}

/// Adds the parts of a rule.
fn push_all_dashes(text: &mut Vec<u8>, widths: &[usize]) -> Result<(), AllocError>
    ensures { OnOk result (text.new.items ≡ text.old.items ++ flat_map dashes widths.now) }
{
    for wide in widths {
        push_dashes(text, *wide)?;
    }
    Ok(())
}

/// Adds a rule.
fn push_rule(text: &mut Vec<u8>, widths: &[usize]) -> Result<(), AllocError>
    ensures { OnOk result (text.new.items ≡ text.old.items ++ rule widths.now) }
{
    text.extend_from_slice(b"+")?;
    push_all_dashes(text, widths)?;
    text.extend_from_slice(b"\n")
}

/// Adds the lines of rows.
fn push_lines(text: &mut Vec<u8>, widths: &[usize], rows: &[Row<Octets>]) -> Result<(), AllocError>
    ensures { OnOk result (text.new.items ≡ text.old.items ++ flat_map (line widths.now) rows.now) }
{
    for cells in rows {
        push_line(text, widths, cells.as_slice())?;
    }
    Ok(())
}

/// Adds a table whose first row has the names, and whose columns have these widths.
fn push_table(
    text: &mut Vec<u8>,
    widths: &[usize],
    names: &[Octets],
    rows: &[Row<Octets>],
) -> Result<(), AllocError>
    ensures { OnOk result (text.new.items ≡ text.old.items ++ lines widths.now names.now rows.now) }
{
    push_rule(text, widths)?;
    push_line(text, widths, names)?;
    push_rule(text, widths)?;
    push_lines(text, widths, rows)?;
    push_rule(text, widths)
}

/// A table of texts, each column as wide as its widest cell. The first row has the names of so many columns.
pub(crate) fn push_aligned(
    alloc: Global,
    text: &mut Vec<u8>,
    table: &[Row<Octets>],
) -> Result<(), AllocError>
    ensures { OnOk result ((names : _) (rows : _) → table.now ≡ names ∷ rows
        → text.new.items ≡ text.old.items ++ aligned names rows) }
{
    let [names, rows @ ..] = table else {
        return Ok(());
    };
    let widths = widths(alloc, table, names.len())?;
    push_table(text, widths.as_slice(), names.as_slice(), rows)
}
