//! What may stand for the word before a cursor.

ghost use Rattle.std.specs.Prelude.{◌≡◌, ◌++◌, ◌∷◌, [], flat_map, map, IfOk, OnOk};
ghost use Rattle.std.specs.Str.{str_eq_ignore_ascii_case};
ghost use Rattle.std.specs.Str.Lossy.{utf8_lossy};
ghost use Rattle.sql_cells.specs.Offers.{all_columns, begins, column_names, completion, has, in_quotes, is_among};
ghost use Rattle.sql_cells.specs.Offers.{is_plain, keywords, matches, names_for, offer, offer_all, offered_text};
ghost use Rattle.sql_cells.specs.Offers.{table_names, view_names, written};

use crate::gaps::octet;
use crate::rows::lossy;
use crate::tables::width;
use crate::words::{before, name_len, word_start};
use interp_core::Completion;
use listed::{Octets, Row, Text};
use sqlite_schema::schema::{Column, Schema, Table, View};
use sqlite_syntax::token::{KEYWORDS, Kind};
use std::alloc::{AllocError, Global};

/// Whether a name begins with a word, but for the case of ASCII letters.
fn begins(word: &[u8], name: &[u8]) -> bool
    ensures { result ≡ begins word.now name.now }
{
    if name.len() < word.len() {
        return name.eq_ignore_ascii_case(word);
    }
    name[..word.len()].eq_ignore_ascii_case(word)
}

/// Whether a name stands among others.
fn has(names: &[Octets], name: &[u8]) -> bool
    ensures { result ≡ has names.now name.now }
{
    for other in names {
        if other.as_slice() == name {
            return true;
        }
    }
    false
}

/// Adds a name if it begins with the word and isn't there yet.
fn offer(
    alloc: Global,
    offered: &mut Vec<Octets>,
    word: &[u8],
    name: &[u8],
) -> Result<(), AllocError>
    ensures { OnOk result (offered.new.items ≡ offer word.now offered.old.items name.now) }
{
    if begins(word, name) && !has(offered.as_slice(), name) {
        offered.push(Octets::new(Vec::from_slice(alloc, name)?))?;
    }
    Ok(())
}

/// Adds tables.
fn offer_tables(
    alloc: Global,
    offered: &mut Vec<Octets>,
    word: &[u8],
    tables: &[Table],
) -> Result<(), AllocError>
    ensures { OnOk result (offered.new.items ≡ offer_all word.now offered.old.items (table_names tables.now)) }
{
    for table in tables {
        offer(alloc, offered, word, table.name.as_slice())?;
    }
    Ok(())
}

/// Adds views.
fn offer_views(
    alloc: Global,
    offered: &mut Vec<Octets>,
    word: &[u8],
    views: &[View],
) -> Result<(), AllocError>
    ensures { OnOk result (offered.new.items ≡ offer_all word.now offered.old.items (view_names views.now)) }
{
    for view in views {
        offer(alloc, offered, word, view.name.as_slice())?;
    }
    Ok(())
}

/// Adds the columns of a table.
fn offer_columns(
    alloc: Global,
    offered: &mut Vec<Octets>,
    word: &[u8],
    columns: &[Column],
) -> Result<(), AllocError>
    ensures { OnOk result (offered.new.items ≡ offer_all word.now offered.old.items (column_names columns.now)) }
{
    for column in columns {
        offer(alloc, offered, word, column.name.as_slice())?;
    }
    Ok(())
}

/// Adds the columns of tables.
fn offer_all_columns(
    alloc: Global,
    offered: &mut Vec<Octets>,
    word: &[u8],
    tables: &[Table],
) -> Result<(), AllocError>
    ensures { OnOk result (offered.new.items ≡ offer_all word.now offered.old.items (all_columns tables.now)) }
{
    for table in tables {
        offer_columns(alloc, offered, word, table.columns.as_slice())?;
    }
    Ok(())
}

/// Adds the words of a table.
fn offer_words(
    alloc: Global,
    offered: &mut Vec<Octets>,
    word: &[u8],
    table: &[(&[u8], Kind)],
) -> Result<(), AllocError>
    ensures { OnOk result (offered.new.items ≡ offer_all word.now offered.old.items (map (λ k. k.0.now) table.now)) }
{
    for entry in table {
        offer(alloc, offered, word, entry.0)?;
    }
    Ok(())
}

/// Adds the keywords.
fn offer_keywords(alloc: Global, offered: &mut Vec<Octets>, word: &[u8]) -> Result<(), AllocError>
    ensures { OnOk result (offered.new.items ≡ offer_all word.now offered.old.items keywords) }
{
    offer_words(alloc, offered, word, &KEYWORDS)
}

/// The names that may stand for a word.
fn names_for(alloc: Global, schema: &Schema, word: &[u8]) -> Result<Vec<Octets>, AllocError>
    ensures { IfOk result (λ names. names.items ≡ names_for schema.now word.now) }
{
    let mut names = Vec::new(alloc);
    offer_tables(alloc, &mut names, word, schema.tables.as_slice())?;
    offer_views(alloc, &mut names, word, schema.views.as_slice())?;
    offer_all_columns(alloc, &mut names, word, schema.tables.as_slice())?;
    Ok(names)
}

/// The keywords that may stand for a word.
fn keywords_for(alloc: Global, word: &[u8]) -> Result<Vec<Octets>, AllocError>
    ensures { IfOk result (λ words. words.items ≡ offer_all word.now [] keywords) }
{
    let mut words = Vec::new(alloc);
    offer_keywords(alloc, &mut words, word)?;
    Ok(words)
}

/// Whether a name is a word, but for the case of ASCII letters.
fn is_word(word: &[u8], name: &[u8]) -> bool
    ensures { result ≡ str_eq_ignore_ascii_case word.now name.now }
{
    word.eq_ignore_ascii_case(name)
}

/// Whether a name is a word of a table, but for the case of ASCII letters.
fn is_among(table: &[(&[u8], Kind)], name: &[u8]) -> bool
    ensures { result ≡ is_among (map (λ k. k.0.now) table.now) name.now }
{
    for entry in table {
        if is_word(entry.0, name) {
            return true;
        }
    }
    false
}

/// Whether a name is a keyword.
fn is_keyword(name: &[u8]) -> bool
    ensures { result ≡ is_among keywords name.now }
{
    is_among(&KEYWORDS, name)
}

/// Adds an octet of a name in double quotes.
fn push_in_quotes(text: &mut Vec<u8>, octet: u8) -> Result<(), AllocError>
    ensures { OnOk result (text.new.items ≡ text.old.items ++ in_quotes octet) }
{
    if octet == b'"' {
        return text.extend_from_slice(b"\"\"");
    }
    text.push(octet)?;
    Ok(())
}

/// Adds the octets of a name in double quotes.
fn push_all_in_quotes(text: &mut Vec<u8>, name: &[u8]) -> Result<(), AllocError>
    ensures { OnOk result (text.new.items ≡ text.old.items ++ flat_map in_quotes name.now) }
{
    for octet in name {
        push_in_quotes(text, *octet)?;
    }
    Ok(())
}

/// Whether a name needs no quotes.
fn is_plain(name: &[u8]) -> bool
    ensures { result ≡ is_plain name.now }
{
    name_len(name) == name.len() && !octet(name, 0).is_ascii_digit() && !is_keyword(name)
}

/// Adds a name as SQL writes it, in double quotes if it needs them.
fn push_written(text: &mut Vec<u8>, name: &[u8]) -> Result<(), AllocError>
    ensures { OnOk result (text.new.items ≡ text.old.items ++ written name.now) }
{
    if is_plain(name) {
        return text.extend_from_slice(name);
    }
    text.extend_from_slice(b"\"")?;
    push_all_in_quotes(text, name)?;
    text.extend_from_slice(b"\"")
}

/// A name as it is offered.
fn offered_text(alloc: Global, name: &[u8]) -> Result<Text, AllocError>
    ensures { IfOk result (λ text. text ≡ offered_text name.now) }
{
    let mut text = Vec::new(alloc);
    push_written(&mut text, name)?;
    lossy(alloc, text.as_slice())
}

/// Adds names as texts.
fn push_names(alloc: Global, texts: &mut Vec<Text>, names: &[Octets]) -> Result<(), AllocError>
    ensures { OnOk result (texts.new.items ≡ texts.old.items ++ map offered_text names.now) }
{
    for name in names {
        texts.push(offered_text(alloc, name.as_slice())?)?;
    }
    Ok(())
}

/// Adds keywords as texts.
fn push_keywords(alloc: Global, texts: &mut Vec<Text>, words: &[Octets]) -> Result<(), AllocError>
    ensures { OnOk result (texts.new.items ≡ texts.old.items ++ map utf8_lossy words.now) }
{
    for word in words {
        texts.push(lossy(alloc, word.as_slice())?)?;
    }
    Ok(())
}

/// The texts that may stand for a word.
fn matches(alloc: Global, schema: &Schema, word: &[u8]) -> Result<Row<Text>, AllocError>
    ensures { IfOk result (λ texts. texts ≡ matches schema.now word.now) }
{
    let names = names_for(alloc, schema, word)?;
    let words = keywords_for(alloc, word)?;
    let mut texts = Vec::new(alloc);
    push_names(alloc, &mut texts, names.as_slice())?;
    push_keywords(alloc, &mut texts, words.as_slice())?;
    Ok(Row::new(texts))
}

/// What may stand for the word before a cursor.
pub(crate) fn completion(
    alloc: Global,
    schema: &Schema,
    text: &[u8],
    cursor: u64,
) -> Result<Completion, AllocError>
    ensures { IfOk result (λ completion_is. completion_is ≡ completion schema.now text.now cursor) }
{
    let front = before(text, cursor);
    let (ahead, word) = front.split_at(word_start(front));
    Ok(Completion {
        matches: matches(alloc, schema, word)?,
        start: width(ahead) as u64,
        end: width(front) as u64,
    })
}
