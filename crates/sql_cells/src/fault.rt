//! The errors of sqlite, as faults of an interpreter.

ghost use Rattle.std.specs.Prelude.{◌≡◌, ◌⊎◌, ◌++◌, IfOk, OnOk};
ghost use Rattle.std.specs.Str.Lossy.{utf8_lossy};
ghost use Rattle.interp_core.specs.declared.fault.InterpFault.TheVariants as fault;
ghost use Rattle.sql_cells.specs.Faults.{code_words, compile_words, constraint_words, error_name, error_text};
ghost use Rattle.sql_cells.specs.Faults.{error_words, fault_of, is_memory, parse_words, place_words};

use crate::places::{push_pointed, solid_len};
use interp_core::InterpFault;
use listed::Text;
use sqlite::{Constraint, Error, ErrorCode};
use sqlite_resolve::CompileError;
use sqlite_syntax::error::ParseError;
use std::alloc::{AllocError, Global};

/// The kind of an error.
fn error_name(error: Error) -> &'static str
    ensures { result.now ≡ error_name error }
{
    match error {
        Error::SqlInputError(CompileError::Parse(_)) => "SyntaxError",
        Error::SqliteFailure(ErrorCode::ConstraintViolation(_)) => "IntegrityError",
        Error::SqliteFailure(ErrorCode::TypeMismatch) => "IntegrityError",
        Error::SqliteFailure(_) => "OperationalError",
        _ => "ProgrammingError",
    }
}

/// Why a text has no reading.
fn parse_words(error: ParseError) -> &'static str
    ensures { result.now ≡ parse_words error }
{
    match error {
        ParseError::Syntax(0) => "incomplete input",
        ParseError::Syntax(_) => "syntax error",
        ParseError::Unsupported(_) => "this SQL is not supported",
        ParseError::TooDeep => "an expression nests too deep, or a list is too long",
        ParseError::BadParameter => "variable number must be between ?1 and ?32766",
        ParseError::OutOfMemory => "out of memory",
    }
}

/// Why a text that has a reading has no meaning.
fn compile_words(error: CompileError) -> &'static str
    ensures { result.now ≡ compile_words error }
{
    match error {
        CompileError::Parse(error) => parse_words(error),
        CompileError::NoSuchTable => "no such table",
        CompileError::NoSuchIndex => "no such index",
        CompileError::NoSuchColumn => "no such column",
        CompileError::NoSuchFunction => "no such function",
        CompileError::Ambiguous => "ambiguous column name",
        CompileError::Exists => "a table, an index or a column already exists under this name",
        CompileError::Misuse =>
            "misuse of an aggregate or of a reserved name, or a wrong count of values or arguments",
        CompileError::Mismatch => "the types need a conversion that is not supported",
        CompileError::Unsupported => "this SQL is not supported",
        CompileError::TooBig => "the statement is too large",
        CompileError::NeedsView(_) => "a view is not supported here",
        CompileError::OutOfMemory => "out of memory",
    }
}

/// Which rule of the schema a change would break.
fn constraint_words(rule: Constraint) -> &'static str
    ensures { result.now ≡ constraint_words rule }
{
    match rule {
        Constraint::Datatype => "cannot store a value of this type in the column",
        Constraint::NotNull => "NOT NULL constraint failed",
        Constraint::Check => "CHECK constraint failed",
        Constraint::PrimaryKey => "UNIQUE constraint failed: the row's PRIMARY KEY",
        Constraint::Unique => "UNIQUE constraint failed",
        Constraint::ForeignKey => "FOREIGN KEY constraint failed",
    }
}

/// Why a statement failed as it ran.
fn code_words(code: ErrorCode) -> &'static str
    ensures { result.now ≡ code_words code }
{
    match code {
        ErrorCode::ConstraintViolation(rule) => constraint_words(rule),
        ErrorCode::TypeMismatch => "datatype mismatch",
        ErrorCode::IntegerOverflow => "integer overflow",
        ErrorCode::NoRowid => "database or disk is full: no rowid is left",
        ErrorCode::ForeignKeyMismatch => "foreign key mismatch",
        ErrorCode::TooDeep => "too many levels of trigger recursion",
        ErrorCode::NoClock => "the statement reads the time, and no clock is set",
        ErrorCode::NameTaken => "there is already a table or an index of this name",
        ErrorCode::BadName => "object name reserved for internal use",
        ErrorCode::BadKey => "malformed PRIMARY KEY",
        ErrorCode::BadText => "the statement cannot be kept in the schema",
        ErrorCode::SchemaTooBig => "too many objects or columns",
        ErrorCode::TransactionState =>
            "cannot start a transaction within a transaction, or end one when no transaction is active",
        ErrorCode::NoSuchSavepoint => "no such savepoint",
        ErrorCode::OperationInterrupted =>
            "interrupted: the query took more steps than its limit; `.limit N` allows N steps",
        ErrorCode::NotADatabase => "file is not a database",
        ErrorCode::DatabaseCorrupt => "database disk image is malformed",
        ErrorCode::CannotOpen => "unable to open database file",
        ErrorCode::DatabaseBusy => "database is locked",
        ErrorCode::TooBig => "string or blob too big",
        ErrorCode::OutOfMemory => "out of memory",
        ErrorCode::SystemIoFailure => "disk I/O error",
        ErrorCode::DiskFull => "database or disk is full",
        ErrorCode::Closed => "an earlier failure of the disk closed the database",
    }
}

/// Why a statement failed.
pub fn error_words(error: Error) -> &'static str
    ensures { result.now ≡ error_words error }
{
    match error {
        Error::SqlInputError(error) => compile_words(error),
        Error::SqliteFailure(code) => code_words(code),
        Error::InvalidParameterCount(_, _) => "the statement has parameters, and none are bound",
        Error::MultipleStatement => "You can only execute one statement at a time.",
        Error::ExecuteReturnedResults => "the statement shows rows",
        Error::InvalidQuery => "the statement shows no rows",
        Error::QueryReturnedNoRows => "the query shows no rows",
        Error::InvalidColumnIndex(_) => "there is no such column",
        Error::InvalidColumnType(_, _) => "the column has another type",
        Error::IntegralValueOutOfRange(_) => "the integer is out of range",
        Error::Utf8Error(_) => "the text is no UTF-8",
    }
}

/// Adds the line of a statement that an error points to.
fn push_place(words: &mut Vec<u8>, sql: &[u8], error: Error) -> Result<(), AllocError>
    ensures { OnOk result (words.new.items ≡ words.old.items ++ place_words sql.now error) }
{
    match error {
        Error::SqlInputError(CompileError::Parse(ParseError::Syntax(left))) => {
            push_pointed(
                words,
                sql,
                sql.len().saturating_sub(left).min(solid_len(sql)),
            )
        }
        Error::SqlInputError(CompileError::Parse(ParseError::Unsupported(left))) => {
            push_pointed(words, sql, sql.len().saturating_sub(left))
        }
        _ => Ok(()),
    }
}

/// What is said of an error of a statement.
fn error_text(alloc: Global, sql: &[u8], error: Error) -> Result<Text, AllocError>
    ensures { IfOk result (λ text. text ≡ error_text sql.now error) }
{
    let mut words = Vec::from_slice(alloc, error_words(error).as_bytes())?;
    push_place(&mut words, sql, error)?;
    let text = String::from_utf8_lossy(alloc, &words)?;
    Ok(Text::new(text))
}

/// A text that is owned.
pub(crate) fn owned(alloc: Global, text: &str) -> Result<Text, AllocError>
    ensures { IfOk result (λ owned. owned ≡ text.now) }
{
    Ok(Text::new(String::from_str(alloc, text)?))
}

/// An error that isn't want of memory, as it is raised.
fn raised(alloc: Global, sql: &[u8], error: Error) -> Result<InterpFault, AllocError>
    ensures { IfOk result (λ raised. raised ≡ fault.Raised (error_name error) (error_text sql.now error)) }
{
    let name = owned(alloc, error_name(error))?;
    let value = error_text(alloc, sql, error)?;
    Ok(InterpFault::Raised { name, value })
}

/// Whether the store found no memory.
fn is_memory(error: Error) -> bool
    ensures { result ≡ is_memory error }
{
    matches!(
        error,
        Error::SqliteFailure(ErrorCode::OutOfMemory)
            | Error::SqlInputError(CompileError::OutOfMemory)
            | Error::SqlInputError(CompileError::Parse(ParseError::OutOfMemory))
    )
}

/// The fault of an error of a statement, or want of memory.
pub(crate) fn fault_of(alloc: Global, sql: &[u8], error: Error) -> InterpFault
    ensures { (result ≡ fault_of sql.now error) ⊎ (result ≡ fault.OutOfMemory) }
{
    if is_memory(error) {
        return InterpFault::OutOfMemory;
    }
    match raised(alloc, sql, error) {
        Ok(fault) => fault,
        Err(AllocError) => InterpFault::OutOfMemory,
    }
}
