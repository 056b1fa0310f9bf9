//! What a person is shown of a statement that ran.

ghost use Rattle.std.specs.Prelude.{◌≡◌, [], ◌∷◌, ◌++◌, IfOk, OnOk};
ghost use Rattle.std.specs.Str.Lossy.{utf8_lossy};
ghost use Rattle.sql_cells.specs.Shown.{count_text, first_of, shown, table_output, worth};

use crate::fault::owned;
use crate::rows::{html_table, lossy, push_first_value, text_table};
use crate::statement::Came;
use interp_core::Output;
use listed::{Row, Text};
use sqlite::types::Bytes;
use sqlite::{Row as Values, Statement};
use std::alloc::{AllocError, Global};

/// Rows under the names of their columns.
fn table_output(alloc: Global, names: &[Bytes], rows: &[Values]) -> Result<Output, AllocError>
    ensures { IfOk result (λ output. output ≡ table_output names.now rows.now) }
{
    let text = text_table(alloc, names, rows)?;
    let html = html_table(alloc, names, rows)?;
    Ok(Output::DisplayHtml { text, html })
}

/// A count of rows.
fn count_text(alloc: Global, count: usize) -> Result<Text, AllocError>
    ensures { IfOk result (λ text. text ≡ count_text count) }
{
    if count == 1 {
        return owned(alloc, "1 row\n");
    }
    let text = format!(in alloc; "{count} rows\n")?;
    Ok(Text::new(text))
}

/// A list of one output.
pub(crate) fn only(alloc: Global, output: Output) -> Result<Row<Output>, AllocError>
    ensures { IfOk result (λ outputs. outputs ≡ output ∷ []) }
{
    let mut outputs = Vec::new(alloc);
    outputs.push(output)?;
    Ok(Row::new(outputs))
}

/// The one output of rows under the names of a statement's columns.
fn table_outputs(
    alloc: Global,
    statement: &Statement,
    rows: &[Values],
) -> Result<Row<Output>, AllocError>
    ensures { IfOk result (λ outputs. outputs ≡ table_output statement.now.columns rows.now ∷ []) }
{
    let output = table_output(alloc, statement.column_names(), rows)?;
    only(alloc, output)
}

/// What is shown of a statement.
pub(crate) fn shown(alloc: Global, came: &Came) -> Result<Row<Output>, AllocError>
    ensures { IfOk result (λ outputs. outputs ≡ shown came.now) }
{
    match came {
        Came::Rows(statement, rows) => table_outputs(alloc, statement, rows),
        Came::Changed(0) => Ok(Row::new(Vec::new(alloc))),
        Came::Changed(count) => only(alloc, Output::Stdout(count_text(alloc, *count)?)),
    }
}

/// Adds the first value of the first row, if there is one.
fn push_first(text: &mut Vec<u8>, rows: &[Values]) -> Result<(), AllocError>
    ensures { OnOk result (text.new.items ≡ text.old.items ++ first_of rows.now) }
{
    match rows {
        [row, ..] => push_first_value(text, row),
        [] => Ok(()),
    }
}

/// The first value of the first row, or nothing.
fn first_text(alloc: Global, rows: &[Values]) -> Result<Text, AllocError>
    ensures { IfOk result (λ text. text ≡ utf8_lossy (first_of rows.now)) }
{
    let mut octets = Vec::new(alloc);
    push_first(&mut octets, rows)?;
    lossy(alloc, octets.as_slice())
}

/// What a statement is worth.
pub(crate) fn worth(alloc: Global, came: &Came) -> Result<Text, AllocError>
    ensures { IfOk result (λ text. text ≡ worth came.now) }
{
    match came {
        Came::Rows(_, rows) => first_text(alloc, rows),
        Came::Changed(count) => {
            let text = format!(in alloc; "{count}")?;
            Ok(Text::new(text))
        }
    }
}
