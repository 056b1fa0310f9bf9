//! What is known of a name.

ghost use Rattle.std.specs.Prelude.{◌≡◌, ◌++◌, [], codes, flat_map, if◌then◌else◌, IfOk, OnOk, Some};
ghost use Rattle.sql_cells.specs.Inspections.{column_head, column_lines, column_text, column_words};
ghost use Rattle.sql_cells.specs.Inspections.{columns_text, columns_words, create_table, described, next_column};
ghost use Rattle.sql_cells.specs.Inspections.{if_some, inspection, is_named, kind_word, table_head, table_lines};
ghost use Rattle.sql_cells.specs.Inspections.{column_at, name_at, name_in, names_at, next_name, primary_head};
ghost use Rattle.sql_cells.specs.Inspections.{primary_text, table_words, view_lines, view_words};

use crate::rows::lossy;
use crate::words::word_around;
use listed::Text;
use sqlite_schema::schema::{Column, Kind, Schema, Table, View};
use std::alloc::{AllocError, Global};

/// The type of a column of a STRICT table, or the affinity of another.
fn kind_word(is_strict: bool, kind: Kind) -> &'static str
    ensures { result.now ≡ kind_word is_strict kind }
{
    match kind {
        Kind::Integer if is_strict => "INTEGER",
        Kind::Integer => "INTEGER or NUMERIC",
        Kind::Real => "REAL",
        Kind::Text => "TEXT",
        Kind::Blob => "BLOB",
        Kind::Any if is_strict => "ANY",
        Kind::Any => "BLOB",
    }
}

/// Adds a column as it is shown.
fn push_column(words: &mut Vec<u8>, column: &Column) -> Result<(), AllocError>
    ensures { OnOk result (words.new.items ≡ words.old.items ++ column_text column.now) }
{
    words.extend_from_slice(b"  ")?;
    words.extend_from_slice(column.name.as_slice())?;
    words.extend_from_slice(b" ")?;
    words.extend_from_slice(kind_word(column.is_strict, column.kind).as_bytes())?;
    words.extend_from_slice(column_end(column.not_null))
}

/// What stands after the type of a column.
fn column_end(not_null: bool) -> &'static [u8]
    ensures { result.now ≡ (if not_null then codes " NOT NULL" else []) }
{
    if not_null { b" NOT NULL" } else { b"" }
}

/// Adds columns as they are shown after another one.
fn push_next_columns(words: &mut Vec<u8>, columns: &[Column]) -> Result<(), AllocError>
    ensures { OnOk result (words.new.items ≡ words.old.items ++ flat_map next_column columns.now) }
{
    for column in columns {
        words.extend_from_slice(b",\n")?;
        push_column(words, column)?;
    }
    Ok(())
}

/// Adds columns as they are shown, with commas between them.
fn push_columns(words: &mut Vec<u8>, columns: &[Column]) -> Result<(), AllocError>
    ensures { OnOk result (words.new.items ≡ words.old.items ++ columns_text columns.now) }
{
    let [first, others @ ..] = columns else {
        return Ok(());
    };
    push_column(words, first)?;
    push_next_columns(words, others)
}

/// Whether two names are one, but for the case of ASCII letters.
fn is_named(name: &[u8], other: &[u8]) -> bool
    ensures { result ≡ is_named name.now other.now }
{
    other.eq_ignore_ascii_case(name)
}

/// Adds a table, if this is its name.
fn push_table(words: &mut Vec<u8>, name: &[u8], table: &Table) -> Result<(), AllocError>
    ensures { OnOk result (words.new.items ≡ words.old.items ++ table_words name.now table.now) }
{
    if is_named(name, table.name.as_slice()) {
        return push_table_lines(words, table);
    }
    Ok(())
}

/// Adds how the statement begins that makes a table.
fn push_create_table(words: &mut Vec<u8>) -> Result<(), AllocError>
    ensures { OnOk result (words.new.items ≡ words.old.items ++ create_table) }
{
    words.extend_from_slice(b"CREATE TABLE ")
}

/// Adds how a table that is shown begins.
fn push_table_head(words: &mut Vec<u8>, name: &[u8]) -> Result<(), AllocError>
    ensures { OnOk result (words.new.items ≡ words.old.items ++ table_head name.now) }
{
    push_create_table(words)?;
    words.extend_from_slice(name)?;
    words.extend_from_slice(b" (\n")
}

/// Adds a table as it is shown.
fn push_table_lines(words: &mut Vec<u8>, table: &Table) -> Result<(), AllocError>
    ensures { OnOk result (words.new.items ≡ words.old.items ++ table_lines table.now) }
{
    push_table_head(words, table.name.as_slice())?;
    push_columns(words, table.columns.as_slice())?;
    push_primary(words, table)?;
    words.extend_from_slice(b"\n);\n")
}

/// The column at a place of a row, of which place 0 is that of the INTEGER PRIMARY KEY.
fn column_at(key: Option<usize>, place: usize) -> Option<usize>
    ensures { result ≡ column_at key place }
{
    if place == 0 { key } else { Some(place - 1) }
}

/// The name of a column by its number, if there is one.
fn name_in(columns: &[Column], at: usize) -> &[u8]
    ensures { result.now ≡ name_in columns.now (Some at) }
{
    match columns.get(at) {
        Some(column) => column.name.as_slice(),
        None => b"",
    }
}

/// The name of the column at a place of a table's rows.
fn name_at(table: &Table, place: usize) -> &[u8]
    ensures { result.now ≡ name_at table.now place }
{
    match column_at(table.key, place) {
        Some(at) => name_in(table.columns.as_slice(), at),
        None => b"",
    }
}

/// Adds the names of the columns at places after another one.
fn push_next_names(words: &mut Vec<u8>, table: &Table, places: &[usize]) -> Result<(), AllocError>
    ensures { OnOk result (words.new.items ≡ words.old.items ++ flat_map (next_name table.now) places.now) }
{
    for place in places {
        words.extend_from_slice(b", ")?;
        words.extend_from_slice(name_at(table, *place))?;
    }
    Ok(())
}

/// Adds the names of the columns at places, with commas between them.
fn push_names_at(words: &mut Vec<u8>, table: &Table, places: &[usize]) -> Result<(), AllocError>
    ensures { OnOk result (words.new.items ≡ words.old.items ++ names_at table.now places.now) }
{
    let [first, others @ ..] = places else {
        return Ok(());
    };
    words.extend_from_slice(name_at(table, *first))?;
    push_next_names(words, table, others)
}

/// Adds how the line begins that tells a primary key.
fn push_primary_head(words: &mut Vec<u8>) -> Result<(), AllocError>
    ensures { OnOk result (words.new.items ≡ words.old.items ++ primary_head) }
{
    words.extend_from_slice(b",\n  PRIMARY KEY (")
}

/// Adds a table's primary key, if there is one.
fn push_primary(words: &mut Vec<u8>, table: &Table) -> Result<(), AllocError>
    ensures { OnOk result (words.new.items ≡ words.old.items ++ primary_text table.now) }
{
    if table.primary.as_slice().is_empty() {
        return Ok(());
    }
    push_primary_head(words)?;
    push_names_at(words, table, table.primary.as_slice())?;
    words.extend_from_slice(b")")
}

/// Adds the tables that have this name.
fn push_tables(words: &mut Vec<u8>, name: &[u8], tables: &[Table]) -> Result<(), AllocError>
    ensures { OnOk result (words.new.items ≡ words.old.items ++ flat_map (table_words name.now) tables.now) }
{
    for table in tables {
        push_table(words, name, table)?;
    }
    Ok(())
}

/// Adds a view, if this is its name.
fn push_view(words: &mut Vec<u8>, name: &[u8], view: &View) -> Result<(), AllocError>
    ensures { OnOk result (words.new.items ≡ words.old.items ++ view_words name.now view.now) }
{
    if is_named(name, view.name.as_slice()) {
        return push_view_lines(words, view);
    }
    Ok(())
}

/// Adds a view as it is shown.
fn push_view_lines(words: &mut Vec<u8>, view: &View) -> Result<(), AllocError>
    ensures { OnOk result (words.new.items ≡ words.old.items ++ view_lines view.now) }
{
    if view.sql.as_slice().is_empty() {
        return Ok(());
    }
    words.extend_from_slice(view.sql.as_slice())?;
    words.extend_from_slice(b";\n")
}

/// Adds the views that have this name.
fn push_views(words: &mut Vec<u8>, name: &[u8], views: &[View]) -> Result<(), AllocError>
    ensures { OnOk result (words.new.items ≡ words.old.items ++ flat_map (view_words name.now) views.now) }
{
    for view in views {
        push_view(words, name, view)?;
    }
    Ok(())
}

/// Adds a column with its table, if this is its name.
fn push_named(
    words: &mut Vec<u8>,
    name: &[u8],
    table: &[u8],
    column: &Column,
) -> Result<(), AllocError>
    ensures { OnOk result (words.new.items ≡ words.old.items ++ column_words name.now table.now column.now) }
{
    if is_named(name, column.name.as_slice()) {
        return push_column_lines(words, table, column);
    }
    Ok(())
}

/// Adds a column as it is shown with its table.
fn push_column_lines(words: &mut Vec<u8>, table: &[u8], column: &Column) -> Result<(), AllocError>
    ensures { OnOk result (words.new.items ≡ words.old.items ++ column_lines table.now column.now) }
{
    push_column_head(words, table)?;
    push_column(words, column)?;
    words.extend_from_slice(b"\n")
}

/// Adds the line before a column that has its table.
fn push_column_head(words: &mut Vec<u8>, table: &[u8]) -> Result<(), AllocError>
    ensures { OnOk result (words.new.items ≡ words.old.items ++ column_head table.now) }
{
    words.extend_from_slice(b"in table ")?;
    words.extend_from_slice(table)?;
    words.extend_from_slice(b"\n")
}

/// Adds the columns of a table that have this name.
fn push_all_named(
    words: &mut Vec<u8>,
    name: &[u8],
    table: &[u8],
    columns: &[Column],
) -> Result<(), AllocError>
    ensures { OnOk result (words.new.items
        ≡ words.old.items ++ flat_map (column_words name.now table.now) columns.now) }
{
    for column in columns {
        push_named(words, name, table, column)?;
    }
    Ok(())
}

/// Adds the columns of tables that have this name.
fn push_each_named(words: &mut Vec<u8>, name: &[u8], tables: &[Table]) -> Result<(), AllocError>
    ensures { OnOk result (words.new.items ≡ words.old.items ++ flat_map (columns_words name.now) tables.now) }
{
    for table in tables {
        push_all_named(words, name, table.name.as_slice(), table.columns.as_slice())?;
    }
    Ok(())
}

/// What is known of a name.
fn described(alloc: Global, schema: &Schema, name: &[u8]) -> Result<Vec<u8>, AllocError>
    ensures { IfOk result (λ words. words.items ≡ described schema.now name.now) }
{
    let mut words = Vec::new(alloc);
    push_tables(&mut words, name, schema.tables.as_slice())?;
    push_views(&mut words, name, schema.views.as_slice())?;
    push_each_named(&mut words, name, schema.tables.as_slice())?;
    Ok(words)
}

/// Words, if there are some.
fn if_some(alloc: Global, words: &[u8]) -> Result<Option<Text>, AllocError>
    ensures { IfOk result (λ known. known ≡ if_some words.now) }
{
    if words.is_empty() {
        return Ok(None);
    }
    let text = lossy(alloc, words)?;
    Ok(Some(text))
}

/// What is known of the word at a cursor.
pub(crate) fn inspection(
    alloc: Global,
    schema: &Schema,
    text: &[u8],
    cursor: u64,
) -> Result<Option<Text>, AllocError>
    ensures { IfOk result (λ known. known ≡ inspection schema.now text.now cursor) }
{
    let name = word_around(alloc, text, cursor)?;
    let words = described(alloc, schema, name.as_slice())?;
    if_some(alloc, words.as_slice())
}
