//! Shell arithmetic as an interpreter.

ghost use Rattle.std.specs.Prelude.{◌≡◌, [], length, Err, MatchResult};
ghost use Rattle.std.specs.Str.{chars};
ghost use Rattle.arith_syntax.specs.Reading.{CellMeans, OrMemory};
ghost use Rattle.interp_core.specs.declared.fault.InterpFault.TheVariants.{OutOfMemory};
ghost use Rattle.interp_core.specs.Interpreter.{Answers, OnMemory};
ghost use Rattle.arith_shell.specs.ShellArithmetic.{GivesUp, IsEvaluated, IsRead, Judges, shell_info, shown_variable};

use crate::cursor::{word_around, word_before};
use crate::fault::{from_read, from_value};
use crate::statement::{run_first, value_text};
use arith_syntax::{ReadFault, Trees, read_cell, read_statement};
use arith_value::Variables;
use interp_core::{Completeness, Completion, Determined, Info, InterpFault, Interpreter, Stepped};
use listed::{Row, Text};
use std::alloc::Global;
use std::marker::Model;

/// The statements of a cell that haven't run yet: a contract sees the list of their trees.
#[derive(Drop)]
pub struct Statements {
    /// The text of the cell, in which the names stand.
    code: Text,
    /// Their trees, in their order.
    waiting: Trees,
}

impl Model for Statements {
    ghost use Rattle.std.specs.Prelude.{List};
    ghost use Rattle.std.specs.Coded.{coded_list};
    ghost use Rattle.arith_syntax.specs.Grammar.{Tree};
    ghost use Rattle.arith_syntax.specs.Parts.{trees_of};
    ghost use Rattle.arith_syntax.specs.TreeCode.{tree_code};

    ghost Value = { List Tree };

    ghost coded = { coded_list tree_code };

    ghost view = { λ s. trees_of s.code s.waiting };
}

/// POSIX shell arithmetic in 64 bits (POSIX.1-2017, XCU 2.6.4, in the profile of docs/ARITHMETIC.md): a contract sees
/// the variables. A cell is statements that `;` parts, and each statement is one step.
#[derive(Drop)]
pub struct ShellArith {
    /// The variables, which stay from cell to cell.
    variables: Variables,
}

impl Model for ShellArith {
    ghost use Rattle.std.specs.Prelude.{ℕ, List, ℤ};

    ghost Value = { List (List ℕ × ℤ) };

    ghost view = { λ s. s.variables };
}

impl ShellArith {
    /// Shell arithmetic with no variable assigned. Its variables take their memory from `alloc`.
    pub fn new(alloc: Global) -> ShellArith
        ensures { result ≡ [] }
    {
        ShellArith {
            variables: Variables::new(alloc),
        }
    }
}

impl Interpreter for ShellArith {
    type Cell = Statements;

    ghost use Rattle.arith_shell.specs.ShellArithmetic.{shell_meaning};

    ghost meaning = { shell_meaning };

    fn info(&self, alloc: Global) -> Result<Info, InterpFault> {
        shell_info(alloc)
    }

    fn begin(&mut self, alloc: Global, code: &str) -> Result<Statements, InterpFault> {
        read(alloc, code)
    }

    fn steps_left(&self, cell: &Statements) -> u64 {
        cell.waiting.len()
    }

    fn step(&mut self, alloc: Global, cell: &mut Statements) -> Stepped {
        run_first(
            alloc,
            &mut self.variables,
            cell.code.as_str(),
            &mut cell.waiting,
        )
    }

    fn complete(&self, alloc: Global, code: &str, cursor: u64) -> Result<Completion, InterpFault> {
        let word = word_before(alloc, code, cursor)?;
        let matches = self
            .variables
            .names_beginning(alloc, word.text.as_str())
            .map_err(from_value)?;
        Ok(Completion {
            matches: Row::new(matches),
            start: word.start,
            end: word.end,
        })
    }

    fn inspect(&self, alloc: Global, code: &str, cursor: u64) -> Result<Option<Text>, InterpFault> {
        let word = word_around(alloc, code, cursor)?;
        shown_variable(alloc, word.as_str(), self.variables.get(word.as_str()))
    }

    fn is_complete(&self, alloc: Global, code: &str) -> Result<Completeness, InterpFault> {
        judge(alloc, code)
    }

    fn evaluate(&mut self, alloc: Global, text: &str) -> Result<Text, InterpFault> {
        evaluate_text(alloc, &mut self.variables, text)
    }

    ghost use Rattle.arith_syntax.proofs.Theorems.{one_reading};
    ghost use Rattle.arith_shell.specs.ShellLaws.{shell_laws};

    ghost laws = { shell_laws one_reading };
}

impl Determined for ShellArith {
    ghost use Rattle.arith_syntax.proofs.Theorems.{one_reading};
    ghost use Rattle.arith_shell.specs.ShellLaws.{shell_once};

    ghost once = { shell_once one_reading };
}

/// What shell arithmetic says of itself.
fn shell_info(alloc: Global) -> Result<Info, InterpFault>
    ensures { MatchResult result (λ info. info ≡ shell_info) (λ fault. fault ≡ OutOfMemory) }
{
    Ok(Info {
        banner: text(alloc, "Shell arithmetic in 64 bits")?,
        file_extension: text(alloc, ".sha")?,
        mimetype: text(alloc, "text/plain")?,
        name: text(alloc, "sharith")?,
        version: text(alloc, "1.0")?,
    })
}

/// An owned text.
fn text(alloc: Global, text: &str) -> Result<Text, InterpFault>
    ensures { MatchResult result (λ owned. owned ≡ text.now) (λ fault. fault ≡ OutOfMemory) }
{
    Ok(Text::new(String::from_str(alloc, text)?))
}

/// A variable as it is shown, where it has a value.
fn shown_variable(
    alloc: Global,
    name: &str,
    value: Option<i64>,
) -> Result<Option<Text>, InterpFault>
    ensures { MatchResult result (λ shown. shown ≡ shown_variable name.now value) (λ fault. fault ≡ OutOfMemory) }
{
    match value {
        Some(value) => {
            let shown = format!(in alloc; "{name} = {value}")?;
            Ok(Some(Text::new(shown)))
        }
        None => Ok(None),
    }
}

/// Reads a cell.
fn read(alloc: Global, code: &str) -> Result<Statements, InterpFault>
    ensures { Answers (IsRead code.now) result }
{
    match read_cell(alloc, code) {
        Ok(waiting) => match text(alloc, code) {
            Ok(code) => Ok(Statements { code, waiting }),
            Err(fault) => {
                drop(waiting);
                Err(fault)
            }
        },
        Err(fault) => Err(from_read(fault)),
    }
}

/// Reads a text as one statement and evaluates it.
fn evaluate_text(alloc: Global, variables: &mut Variables, text: &str) -> Result<Text, InterpFault>
    ensures answered { Answers (λ answer. IsEvaluated variables.old text.now answer variables.new) result }
    ensures refused { OnMemory result (GivesUp variables.old text.now variables.new) }
{
    match read_statement(alloc, text) {
        Ok(parts) => value_text(alloc, variables, text, parts.lend()),
        Err(fault) => Err(from_read(fault)),
    }
}

/// Whether a text is a whole cell.
fn judge(alloc: Global, code: &str) -> Result<Completeness, InterpFault>
    ensures { Answers (Judges (chars code.now)) result }
{
    match read_cell(alloc, code) {
        Ok(_) => Ok(Completeness::Complete),
        Err(fault) => judge_fault(code, fault),
    }
}

/// Whether a text that has a fault is the beginning of a cell: where the fault is one of syntax at its end.
fn judge_fault(code: &str, fault: ReadFault) -> Result<Completeness, InterpFault>
    ensures { OrMemory (λ f. CellMeans (chars code.now) (Err f)) fault → Answers (Judges (chars code.now)) result }
{
    match fault {
        ReadFault::Syntax(place) if place == length_of(code) => Ok(Completeness::Incomplete),
        ReadFault::Syntax(_) | ReadFault::TooDeep => Ok(Completeness::Invalid),
        ReadFault::OutOfMemory => Err(InterpFault::OutOfMemory),
    }
}

/// How many code points a text has.
fn length_of(code: &str) -> u64
    ensures { result ≡ length (chars code.now) }
{
    code.chars().count() as u64
}
