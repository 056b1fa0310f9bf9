//! The statements of a cell, run one at a time.

ghost use Rattle.std.specs.Prelude.{◌≡◌, ◌+◌, ◌<◌, List, [], ◌∷◌, ◌++◌, codes, length, MatchResult};
ghost use Rattle.arith_syntax.specs.Grammar.{Tree};
ghost use Rattle.arith_syntax.specs.Packed.{parts_of};
ghost use Rattle.arith_syntax.specs.Parts.{tree_of, trees_of};
ghost use Rattle.arith_value.specs.Value.{Stops, value};
ghost use Rattle.interp_core.specs.declared.answer.Next.TheVariants.{Failed};
ghost use Rattle.interp_core.specs.declared.answer.Output.TheVariants.{Stdout};
ghost use Rattle.interp_core.specs.declared.fault.InterpFault.TheVariants.{OutOfMemory};
ghost use Rattle.interp_core.specs.Interpreter.{ByMemory};
ghost use Rattle.arith_shell.specs.ShellArithmetic.{BreaksOff, IsLast, IsPrintedValue, Runs};

use crate::fault::from_value;
use arith_syntax::{PartsRef, Trees};
use arith_value::{Variables, evaluate};
use interp_core::{InterpFault, Next, Output, Stepped};
use listed::{Row, Text};
use std::alloc::Global;

/// Runs the first of some statements of a text, of which there is one.
pub(crate) fn run_first(
    alloc: Global,
    variables: &mut Variables,
    code: &str,
    waiting: &mut Trees,
) -> Stepped
    requires { 0 < length waiting.old }
    ensures stepped { ByMemory result.next
        ((result.outputs ≡ []) × BreaksOff variables.old (trees_of code.now waiting.old) variables.new)
        (Runs variables.old (trees_of code.now waiting.old) result variables.new
        (trees_of code.now waiting.new)) }
    ensures lessened { length waiting.new + 1 ≡ length waiting.old }
{
    let last = waiting.len() == 1;
    match waiting.first() {
        Some(statement) => {
            let stepped = run(alloc, variables, code, statement, last);
            waiting.remove_first();
            stepped
        }
        None => unreachable!(),
    }
}

/// Runs a statement, which may be the last of its cell.
fn run(
    alloc: Global,
    variables: &mut Variables,
    code: &str,
    statement: PartsRef<'_>,
    last: bool,
) -> Stepped
    ensures { ByMemory result.next
        ((result.outputs ≡ []) × Stops (value (tree_of code.now (parts_of statement.entry))) variables.old
        variables.new)
        ((left : List Tree) → IsLast last left → Runs variables.old
        (tree_of code.now (parts_of statement.entry) ∷ left) result variables.new left) }
{
    match value_text(alloc, variables, code, statement) {
        Ok(text) if last => Stepped {
            outputs: Row::new(Vec::new(alloc)),
            next: Next::Done(Some(text)),
        },
        Ok(text) => match line(alloc, text) {
            Ok(outputs) => Stepped {
                outputs,
                next: Next::More,
            },
            Err(fault) => failed(alloc, fault),
        },
        Err(fault) => failed(alloc, fault),
    }
}

/// A line on standard output.
fn line(alloc: Global, text: Text) -> Result<Row<Output>, InterpFault>
    ensures { MatchResult result (λ outputs. outputs ≡ Stdout (text ++ codes "\n") ∷ [])
        (λ fault. fault ≡ OutOfMemory) }
{
    let mut line = text.into_string();
    line.push_str("\n")?;
    let mut outputs = Vec::new(alloc);
    outputs.push(Output::Stdout(Text::new(line)))?;
    Ok(Row::new(outputs))
}

/// A step that failed.
fn failed(alloc: Global, fault: InterpFault) -> Stepped
    ensures { result ≡ record { outputs = []; next = Failed fault } }
{
    Stepped {
        outputs: Row::new(Vec::new(alloc)),
        next: Next::Failed(fault),
    }
}

/// The value of a statement of a text as it is printed.
pub(crate) fn value_text(
    alloc: Global,
    variables: &mut Variables,
    code: &str,
    statement: PartsRef<'_>,
) -> Result<Text, InterpFault>
    ensures { IsPrintedValue (tree_of code.now (parts_of statement.entry)) variables.old result variables.new }
{
    let value = evaluate(alloc, code, statement, variables).map_err(from_value)?;
    let text = format!(in alloc; "{value}")?;
    Ok(Text::new(text))
}
