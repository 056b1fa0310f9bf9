//! The command words that name a database, before those that every program of a language reads.

ghost use Rattle.std.specs.Prelude.{◌≤◌, length, IfSome};

use crate::texts::{FAILED, LATE, NO_FILE, NO_KERNELSPEC};
use std::alloc::{AllocError, Global};
use std::io;

/// The word that names a database: its file is the next word.
const DATABASE: &str = "--database";

/// What the word begins with that names a database and its file.
const DATABASE_IS: &str = "--database=";

/// The database that command words name, with the words that are left.
#[derive(Drop)]
pub(crate) enum Database {
    /// They name none, so it is in memory.
    InMemory(io::Result<Vec<String>>),
    /// The database in the file of this path.
    InFile(String, io::Result<Vec<String>>),
    /// The program ends with this status, for what this text tells a person.
    Refused(u8, &'static str),
}

/// The database that command words name.
pub(crate) fn database_by(alloc: Global, words: io::Result<Vec<String>>) -> Database {
    match named_by(alloc, &words) {
        Ok(None) => in_memory(words),
        Ok(Some((path, left))) => {
            drop(words);
            in_file(path, left)
        }
        Err(AllocError) => {
            drop(words);
            Database::Refused(1, FAILED)
        }
    }
}

/// The database in memory, with these words, if none of them names another.
fn in_memory(words: io::Result<Vec<String>>) -> Database {
    let is_late = match &words {
        Ok(words) => name_database(words),
        Err(_) => false,
    };
    if is_late {
        drop(words);
        return Database::Refused(2, LATE);
    }
    Database::InMemory(words)
}

/// The database in the file of this path, with these words after it.
fn in_file(path: String, words: Vec<String>) -> Database {
    let refused = if path.is_empty() {
        NO_FILE
    } else if name_database(&words) {
        LATE
    } else if is_kernelspec(&words) {
        NO_KERNELSPEC
    } else {
        return Database::InFile(path, Ok(words));
    };
    drop(path);
    drop(words);
    Database::Refused(2, refused)
}

/// Whether one of these words names a database.
fn name_database(words: &[String]) -> bool {
    for word in words {
        if word.as_str() == DATABASE || word.as_str().starts_with(DATABASE_IS) {
            return true;
        }
    }
    false
}

/// Whether words order the kernelspec.
fn is_kernelspec(words: &[String]) -> bool {
    words
        .first()
        .is_some_and(|word| word.as_str() == "kernelspec")
}

/// The path of the file that words name, and the words after that; none if they name none or couldn't be read.
fn named_by(
    alloc: Global,
    words: &io::Result<Vec<String>>,
) -> Result<Option<(String, Vec<String>)>, AllocError> {
    let Ok(words) = words else {
        return Ok(None);
    };
    match database_of(words) {
        Some((file, taken)) => Ok(Some(owned(alloc, file, &words[taken..])?)),
        None => Ok(None),
    }
}

/// A path and words that are owned.
fn owned(alloc: Global, path: &str, words: &[String]) -> Result<(String, Vec<String>), AllocError> {
    let words = copied(alloc, words)?;
    let path = String::from_str(alloc, path)?;
    Ok((path, words))
}

/// The file of the database that the first words name, and how many words do so. It is an empty name if there is no
/// word for it, or an option.
fn database_of(words: &[String]) -> Option<(&str, usize)>
    ensures { IfSome result (λ named. named.1 ≤ length words.now) }
{
    let word = words.first()?.as_str();
    if word == DATABASE {
        match words.get(1) {
            Some(file) if !file.as_str().starts_with("-") => Some((file.as_str(), 2)),
            _ => Some(("", 1)),
        }
    } else {
        let file = word.strip_prefix(DATABASE_IS)?;
        Some((file, 1))
    }
}

/// Words that are owned.
fn copied(alloc: Global, words: &[String]) -> Result<Vec<String>, AllocError> {
    let mut copies = Vec::new(alloc);
    for word in words {
        copies.push(String::from_str(alloc, word.as_str())?)?;
    }
    Ok(copies)
}
