//! SQL as an interpreter.

ghost use Rattle.std.specs.Prelude.{◌≡◌, ◌⊎◌, ◌==◌, ◌∷◌, [], ◌<◌, length, slice_index_or, Err, None, Some, false, IfOk};
ghost use Rattle.interp_core.specs.Interpreter.{Answers, ByMemory, OnMemory};
ghost use Rattle.interp_core.specs.declared.answer.Output.TheVariants.{Stdout};
ghost use Rattle.interp_core.specs.declared.fault.InterpFault.TheVariants as faults;
ghost use Rattle.sql_cells.specs.Dots.{help_text, listed, schema_query, unknown_dot};
ghost use Rattle.sql_cells.specs.Meaning.{BreaksOff, Comes, DotComes, DotMayRun, Evaluates, GivesUp, Limits};
ghost use Rattle.sql_cells.specs.Meaning.{LineComes, LineMayRun, MayRun, MayRunText, PieceComes, PieceMayRun};
ghost use Rattle.sql_cells.specs.Meaning.{StepComes, StepMayRun, Steps, TextComes, TextMayRun, expression_query};
ghost use Rattle.sql_cells.specs.Meaning.{completes, inspects, limited, no_text, sql_info, stepped_of, unconnected};
ghost use Rattle.sql_cells.specs.Shown.{shown, worth};

use crate::cut::{cut, judge};
use crate::dots::{
    Dot, HELP, TABLE_NAMES, dot_of, first_word, listed, number, schema_query, second_word,
};
use crate::fault::{fault_of, owned};
use crate::gaps::{is_dotted, past_gaps};
use crate::inspections::inspection;
use crate::offers::completion;
use crate::shown::{only, shown, worth};
use crate::statement::run_statement;
use interp_core::{
    Completeness, Completion, Info, InterpFault, Interpreter, Next, Output, Stepped,
};
use listed::{Octets, Row, Text};
use sqlite::{Alter, Connection};
use std::alloc::{AllocError, Global};
use std::collections::VecDeque;
use std::marker::Model;
use std::str;

/// How many steps a query may take that nobody gave another limit.
pub const STEP_LIMIT: u64 = 6_000_000;

/// The statements of a cell that haven't run yet.
#[derive(Drop)]
pub struct Pieces {
    /// The statements, in their order.
    waiting: VecDeque<Octets>,
}

impl Model for Pieces {
    ghost use Rattle.std.specs.Prelude.{ℕ, List};

    ghost Value = { List (List ℕ) };

    ghost view = { λ p. p.waiting.items };
}

/// SQL over a connection, or over none: then each statement fails.
#[derive(Drop)]
pub struct Sql<S: Alter> {
    /// The connection.
    conn: Option<Connection<S>>,
}

impl<S: Alter> Model for Sql<S> {
    ghost use Rattle.std.specs.Prelude.{Option};
    ghost use Rattle.std.specs.Coded.{coded_option};
    ghost use Rattle.sqlite.specs.Held.{Held, held_code};

    ghost Value = { Option (Held S) };

    ghost coded = { coded_option (held_code S.code) };

    ghost view = { λ s. s.conn };
}

impl<S: Alter> Sql<S> {
    /// SQL over this connection, each of whose queries may take so many steps as `STEP_LIMIT` says.
    pub fn over(mut conn: Connection<S>) -> Sql<S>
        ensures { result ≡ Some (limited conn) }
    {
        conn.set_step_limit(Some(STEP_LIMIT));
        Sql { conn: Some(conn) }
    }

    /// SQL over no database: it tells what the language is, and each statement fails.
    pub fn unconnected() -> Sql<S>
        ensures { result ≡ None }
    {
        Sql { conn: None }
    }
}

/// Two texts that are owned.
fn pair(alloc: Global, first: &str, second: &str) -> Result<(Text, Text), AllocError>
    ensures { IfOk result (λ pair. (pair.0 ≡ first.now) × (pair.1 ≡ second.now)) }
{
    let first = owned(alloc, first)?;
    let second = owned(alloc, second)?;
    Ok((first, second))
}

/// What the language says of itself.
fn info(alloc: Global) -> Result<Info, AllocError>
    ensures { IfOk result (λ info. info ≡ sql_info) }
{
    let (file_extension, mimetype) = pair(alloc, ".sql", "text/x-sql")?;
    let (name, version) = pair(alloc, "sql", "1.0")?;
    let banner = owned(alloc, "SQL over sqlite; .help tells the dot words")?;
    Ok(Info {
        banner,
        file_extension,
        mimetype,
        name,
        version,
    })
}

/// Runs a statement: what a person is shown of it.
fn run_shown<S: Alter>(
    alloc: Global,
    conn: &mut Connection<S>,
    sql: &str,
) -> Result<Row<Output>, InterpFault>
    ensures came { Answers (Comes S.Store shown sql.now conn.old conn.new) result }
    ensures memory { OnMemory result (MayRun S.Store sql.now conn.old conn.new) }
{
    match run_statement(conn, sql) {
        Ok(came) => match shown(alloc, &came) {
            Ok(outputs) => Ok(outputs),
            Err(AllocError) => Err(InterpFault::OutOfMemory),
        },
        Err(error) => Err(fault_of(alloc, sql.as_bytes(), error)),
    }
}

/// Runs the query that a line with a dot stands for.
fn run_listed<S: Alter>(
    alloc: Global,
    conn: &mut Connection<S>,
    sql: &str,
) -> Result<Row<Output>, InterpFault>
    ensures came { Answers (Comes S.Store listed sql.now conn.old conn.new) result }
    ensures memory { OnMemory result (MayRun S.Store sql.now conn.old conn.new) }
{
    match run_statement(conn, sql) {
        Ok(came) => match listed(alloc, &came) {
            Ok(outputs) => Ok(outputs),
            Err(AllocError) => Err(InterpFault::OutOfMemory),
        },
        Err(error) => Err(fault_of(alloc, sql.as_bytes(), error)),
    }
}

/// Runs a query: what it is worth.
fn run_worth<S: Alter>(
    alloc: Global,
    conn: &mut Connection<S>,
    sql: &str,
) -> Result<Text, InterpFault>
    ensures came { Answers (Comes S.Store worth sql.now conn.old conn.new) result }
    ensures memory { OnMemory result (MayRun S.Store sql.now conn.old conn.new) }
{
    match run_statement(conn, sql) {
        Ok(came) => match worth(alloc, &came) {
            Ok(text) => Ok(text),
            Err(AllocError) => Err(InterpFault::OutOfMemory),
        },
        Err(error) => Err(fault_of(alloc, sql.as_bytes(), error)),
    }
}

/// The query of an expression.
fn expression_query(alloc: Global, text: &str) -> Result<Text, AllocError>
    ensures { IfOk result (λ sql. sql ≡ expression_query text.now) }
{
    let sql = format!(in alloc; "SELECT ({text}\n)")?;
    Ok(Text::new(sql))
}

/// What a text is worth as an expression.
fn evaluate_text<S: Alter>(
    alloc: Global,
    conn: &mut Connection<S>,
    text: &str,
) -> Result<Text, InterpFault>
    ensures came { Answers (Comes S.Store worth (expression_query text.now) conn.old conn.new) result }
    ensures memory { OnMemory result (MayRunText S.Store (expression_query text.now) conn.old conn.new) }
{
    match expression_query(alloc, text) {
        Ok(sql) => run_worth(alloc, conn, sql.as_str()),
        Err(AllocError) => Err(InterpFault::OutOfMemory),
    }
}

/// What was made, under a name if there is one.
fn run_schema<S: Alter>(
    alloc: Global,
    conn: &mut Connection<S>,
    name: &[u8],
) -> Result<Row<Output>, InterpFault>
    ensures came { Answers (Comes S.Store listed (schema_query name.now) conn.old conn.new) result }
    ensures memory { OnMemory result (MayRunText S.Store (schema_query name.now) conn.old conn.new) }
{
    match schema_query(alloc, name) {
        Ok(sql) => run_listed(alloc, conn, sql.as_str()),
        Err(AllocError) => Err(InterpFault::OutOfMemory),
    }
}

/// What dot words there are.
#[tactic(auto, using(crate::proofs::CellLemmas::help_is))]
fn help(alloc: Global) -> Result<Row<Output>, AllocError>
    ensures { IfOk result (λ outputs. outputs ≡ Stdout help_text ∷ []) }
{
    let text = owned(alloc, HELP)?;
    only(alloc, Output::Stdout(text))
}

/// Sets the limit on steps.
fn set_limit<S: Alter>(
    alloc: Global,
    conn: &mut Connection<S>,
    steps: Option<u64>,
) -> Result<Row<Output>, InterpFault>
    ensures came { Answers (Limits S.Store steps conn.old conn.new) result }
    ensures memory { OnMemory result (conn.new ≡ conn.old) }
{
    match steps {
        Some(_) => {
            conn.set_step_limit(steps);
            Ok(Row::new(Vec::new(alloc)))
        }
        None => Err(raised(alloc, "ProgrammingError", ".limit takes a number of steps")),
    }
}

/// The fault of a line that asks for nothing known, or want of memory.
fn unknown_dot(alloc: Global) -> InterpFault
    ensures { (result ≡ unknown_dot) ⊎ (result ≡ faults.OutOfMemory) }
{
    raised(
        alloc,
        "ProgrammingError",
        "unknown dot word: .help, .limit N, .schema [TABLE] and .tables are known",
    )
}

/// Runs a line that begins with a dot, by what it asks for and the word after that.
#[tactic(auto, using(crate::proofs::CellLemmas::names_query_is))]
fn run_dot<S: Alter>(
    alloc: Global,
    conn: &mut Connection<S>,
    dot: Dot,
    word: &[u8],
) -> Result<Row<Output>, InterpFault>
    ensures came { Answers (DotComes S.Store dot word.now conn.old conn.new) result }
    ensures memory { OnMemory result (DotMayRun S.Store dot word.now conn.old conn.new) }
{
    match dot {
        Dot::Help => match help(alloc) {
            Ok(outputs) => Ok(outputs),
            Err(AllocError) => Err(InterpFault::OutOfMemory),
        },
        Dot::Tables => run_listed(alloc, conn, TABLE_NAMES),
        Dot::Schema => run_schema(alloc, conn, word),
        Dot::Limit => set_limit(alloc, conn, number(word)),
        Dot::Unknown => Err(unknown_dot(alloc)),
    }
}

/// Runs a line that begins with a dot.
fn run_line<S: Alter>(
    alloc: Global,
    conn: &mut Connection<S>,
    line: &[u8],
) -> Result<Row<Output>, InterpFault>
    ensures came { Answers (LineComes S.Store line.now conn.old conn.new) result }
    ensures memory { OnMemory result (LineMayRun S.Store line.now conn.old conn.new) }
{
    run_dot(alloc, conn, dot_of(first_word(line)), second_word(line))
}

/// Runs a part of a cell: a statement, or a line that begins with a dot.
fn run_text<S: Alter>(
    alloc: Global,
    conn: &mut Connection<S>,
    text: &str,
) -> Result<Row<Output>, InterpFault>
    ensures came { Answers (TextComes S.Store text.now conn.old conn.new) result }
    ensures memory { OnMemory result (TextMayRun S.Store text.now conn.old conn.new) }
{
    if is_dotted(text.as_bytes()) {
        run_line(alloc, conn, past_gaps(text.as_bytes()))
    } else {
        run_shown(alloc, conn, text)
    }
}

/// A fault of this name and these words, or want of memory.
fn raised(alloc: Global, name: &str, value: &str) -> InterpFault
    ensures { (result ≡ faults.Raised name.now value.now) ⊎ (result ≡ faults.OutOfMemory) }
{
    match try_raised(alloc, name, value) {
        Ok(fault) => fault,
        Err(AllocError) => InterpFault::OutOfMemory,
    }
}

/// A fault of this name and these words.
fn try_raised(alloc: Global, name: &str, value: &str) -> Result<InterpFault, AllocError>
    ensures { IfOk result (λ fault. fault ≡ faults.Raised name.now value.now) }
{
    Ok(InterpFault::Raised {
        name: owned(alloc, name)?,
        value: owned(alloc, value)?,
    })
}

/// The fault of octets that are no text, or want of memory.
fn no_text(alloc: Global) -> InterpFault
    ensures { (result ≡ no_text) ⊎ (result ≡ faults.OutOfMemory) }
{
    raised(alloc, "SyntaxError", "the statement is no UTF-8")
}

/// The fault of an interpreter that holds no database, or want of memory.
fn unconnected(alloc: Global) -> InterpFault
    ensures { (result ≡ unconnected) ⊎ (result ≡ faults.OutOfMemory) }
{
    raised(
        alloc,
        "OperationalError",
        "database is locked: restart this kernel once no other program has it open",
    )
}

/// Runs the one statement that octets are.
fn run_piece<S: Alter>(
    alloc: Global,
    conn: &mut Connection<S>,
    piece: &[u8],
) -> Result<Row<Output>, InterpFault>
    ensures came { Answers (PieceComes S.Store piece.now conn.old conn.new) result }
    ensures memory { OnMemory result (PieceMayRun S.Store piece.now conn.old conn.new) }
{
    match str::from_utf8(piece) {
        Ok(sql) => run_text(alloc, conn, sql),
        Err(_) => Err(no_text(alloc)),
    }
}

/// Runs the one statement that octets are, if there is a database.
fn run_on<S: Alter>(
    alloc: Global,
    conn: &mut Option<Connection<S>>,
    piece: &[u8],
) -> Result<Row<Output>, InterpFault>
    ensures came { Answers (StepComes S.Store piece.now conn.old conn.new) result }
    ensures memory { OnMemory result (StepMayRun S.Store piece.now conn.old conn.new) }
{
    match conn {
        Some(conn) => run_piece(alloc, conn, piece),
        None => Err(unconnected(alloc)),
    }
}

/// What a text is worth as a statement, if there is a database.
fn evaluate_on<S: Alter>(
    alloc: Global,
    conn: &mut Option<Connection<S>>,
    sql: &str,
) -> Result<Text, InterpFault>
    ensures came { Answers (λ answer. Evaluates S.Store conn.old sql.now answer conn.new) result }
    ensures memory { OnMemory result (GivesUp S.Store conn.old sql.now conn.new) }
{
    match conn {
        Some(conn) => evaluate_text(alloc, conn, sql),
        None => Err(unconnected(alloc)),
    }
}

/// What a step comes to that has no outputs.
fn quiet(alloc: Global, fault: InterpFault) -> Stepped
    ensures { result ≡ stepped_of (Err fault) false }
{
    Stepped {
        outputs: Row::new(Vec::new(alloc)),
        next: Next::Failed(fault),
    }
}

/// What a step comes to by what its statement came to.
fn stepped(alloc: Global, outcome: Result<Row<Output>, InterpFault>, is_last: bool) -> Stepped
    ensures { result ≡ stepped_of outcome is_last }
{
    match outcome {
        Ok(outputs) => Stepped {
            outputs,
            next: if is_last {
                Next::Done(None)
            } else {
                Next::More
            },
        },
        Err(fault) => quiet(alloc, fault),
    }
}

/// Runs the first statement that waits.
fn run_first<S: Alter>(
    alloc: Global,
    conn: &mut Option<Connection<S>>,
    waiting: &mut VecDeque<Octets>,
) -> Stepped
    requires { 0 < length waiting.old.items }
    ensures stepped { ByMemory result.next ((result.outputs ≡ [])
        × BreaksOff S.Store conn.old waiting.old.items conn.new)
        (Steps S.Store conn.old waiting.old.items result conn.new waiting.new.items) }
    ensures left { waiting.old.items ≡ slice_index_or waiting.old.items 0 [] ∷ waiting.new.items }
{
    let Some(piece) = waiting.pop_front() else {
        unreachable!();
    };
    let outcome = run_on(alloc, conn, piece.as_slice());
    stepped(alloc, outcome, waiting.is_empty())
}

/// What may stand for the word before a cursor.
fn complete_on<S: Alter>(
    alloc: Global,
    conn: &Option<Connection<S>>,
    code: &str,
    cursor: u64,
) -> Result<Completion, AllocError>
    ensures { IfOk result (λ completion. completion ≡ completes S.Store conn.now code.now cursor) }
{
    match conn {
        Some(conn) => completion(alloc, conn.schema(), code.as_bytes(), cursor),
        None => Ok(Completion {
            matches: Row::new(Vec::new(alloc)),
            start: cursor,
            end: cursor,
        }),
    }
}

/// What is known of the word at a cursor.
fn inspect_on<S: Alter>(
    alloc: Global,
    conn: &Option<Connection<S>>,
    code: &str,
    cursor: u64,
) -> Result<Option<Text>, AllocError>
    ensures { IfOk result (λ known. known ≡ inspects S.Store conn.now code.now cursor) }
{
    match conn {
        Some(conn) => inspection(alloc, conn.schema(), code.as_bytes(), cursor),
        None => Ok(None),
    }
}

impl<S: Alter> Interpreter for Sql<S> {
    type Cell = Pieces;

    ghost use Rattle.sql_cells.specs.Meaning.{sql_meaning};
    ghost use Rattle.sql_cells.specs.Laws.{sql_laws};

    ghost meaning = { sql_meaning S.Store };

    fn info(&self, alloc: Global) -> Result<Info, InterpFault> {
        Ok(info(alloc)?)
    }

    fn begin(&mut self, alloc: Global, code: &str) -> Result<Pieces, InterpFault> {
        let waiting = cut(alloc, code.as_bytes())?;
        Ok(Pieces { waiting })
    }

    fn steps_left(&self, cell: &Pieces) -> u64 {
        cell.waiting.len() as u64
    }

    fn step(&mut self, alloc: Global, cell: &mut Pieces) -> Stepped {
        run_first(alloc, &mut self.conn, &mut cell.waiting)
    }

    fn complete(&self, alloc: Global, code: &str, cursor: u64) -> Result<Completion, InterpFault> {
        Ok(complete_on(alloc, &self.conn, code, cursor)?)
    }

    fn inspect(&self, alloc: Global, code: &str, cursor: u64) -> Result<Option<Text>, InterpFault> {
        Ok(inspect_on(alloc, &self.conn, code, cursor)?)
    }

    fn is_complete(&self, alloc: Global, code: &str) -> Result<Completeness, InterpFault> {
        Ok(judge(alloc, code)?)
    }

    fn evaluate(&mut self, alloc: Global, text: &str) -> Result<Text, InterpFault> {
        evaluate_on(alloc, &mut self.conn, text)
    }

    ghost laws = { sql_laws _ };
}
