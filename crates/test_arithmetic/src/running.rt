//! Cells that are run to their end, words at a cursor, and expressions.

use crate::words::tell;
use arith_shell::{ShellArith, Statements};
use interp_core::{Completeness, Completion, Interpreter, Next, Output, Stepped};
use std::alloc::{AllocError, Global};

/// Says what a cell writes in a fresh interpreter.
pub(crate) fn fresh(
    alloc: Global,
    arithmetic: &mut ShellArith,
    code: &str,
    said: &mut String,
) -> Result<(), AllocError> {
    *arithmetic = ShellArith::new(alloc);
    run(alloc, arithmetic, code, said)
}

/// Says what a cell writes: each text on standard output with `|` for a line feed, then `= VALUE`, or its fault.
pub(crate) fn run(
    alloc: Global,
    arithmetic: &mut ShellArith,
    code: &str,
    said: &mut String,
) -> Result<(), AllocError> {
    match arithmetic.begin(alloc, code) {
        Ok(mut cell) => {
            let ran = run_steps(alloc, arithmetic, &mut cell, said);
            drop(cell);
            ran
        }
        Err(fault) => tell(fault, said),
    }
}

/// Runs the steps of a cell, and adds what they write and come to.
fn run_steps(
    alloc: Global,
    arithmetic: &mut ShellArith,
    cell: &mut Statements,
    said: &mut String,
) -> Result<(), AllocError> {
    for _ in 0..u64::MAX {
        if arithmetic.steps_left(cell) == 0 {
            break;
        }
        let stepped = arithmetic.step(alloc, cell);
        if !add_step(stepped, said)? {
            break;
        }
    }
    Ok(())
}

/// Adds what a step writes and comes to; tells whether the cell goes on.
fn add_step(stepped: Stepped, said: &mut String) -> Result<bool, AllocError> {
    let Stepped { outputs, next } = stepped;
    let added = add_outputs(outputs.as_slice(), said);
    drop(outputs);
    match added {
        Ok(()) => add_next(next, said),
        Err(AllocError) => {
            drop(next);
            Err(AllocError)
        }
    }
}

/// Adds what a step writes.
fn add_outputs(outputs: &[Output], said: &mut String) -> Result<(), AllocError> {
    for output in outputs {
        add_output(output, said)?;
    }
    Ok(())
}

/// Adds what a step writes on standard output, with `|` for a line feed.
fn add_output(output: &Output, said: &mut String) -> Result<(), AllocError> {
    match output {
        Output::Stdout(text) => {
            for sign in text.as_str().chars() {
                said.push(if sign == '\n' { '|' } else { sign })?;
            }
            Ok(())
        }
        Output::Stderr(_) | Output::Display(..) | Output::DisplayHtml { .. } => {
            said.push_str("another stream|")
        }
    }
}

/// Adds what a step comes to; tells whether the cell goes on.
fn add_next(next: Next, said: &mut String) -> Result<bool, AllocError> {
    match next {
        Next::More => Ok(true),
        Next::Done(None) => {
            said.push('=')?;
            Ok(false)
        }
        Next::Done(Some(value)) => {
            let added = write!(said, "= {}", value.as_str());
            drop(value);
            added?;
            Ok(false)
        }
        Next::Failed(fault) => {
            tell(fault, said)?;
            Ok(false)
        }
    }
}

/// Says how many lines a cell writes in a fresh interpreter, with the one that it comes to, and that last one.
pub(crate) fn count(
    alloc: Global,
    arithmetic: &mut ShellArith,
    code: &str,
    said: &mut String,
) -> Result<(), AllocError> {
    let mut written = String::new(alloc);
    let counted = match fresh(alloc, arithmetic, code, &mut written) {
        Ok(()) => add_count(written.as_str(), said),
        Err(AllocError) => Err(AllocError),
    };
    drop(written);
    counted
}

/// Adds how many lines there are, and the last of them.
fn add_count(written: &str, said: &mut String) -> Result<(), AllocError> {
    let count = written.split('|').count();
    let last = written.rsplit('|').next().unwrap_or("");
    write!(said, "{count} lines, {last}")
}

/// Says how many steps a cell has, and runs none.
pub(crate) fn begin(
    alloc: Global,
    arithmetic: &mut ShellArith,
    code: &str,
    said: &mut String,
) -> Result<(), AllocError> {
    match arithmetic.begin(alloc, code) {
        Ok(cell) => {
            let steps = arithmetic.steps_left(&cell);
            drop(cell);
            write!(said, "{steps} steps")
        }
        Err(fault) => tell(fault, said),
    }
}

/// Says the value of an expression, or its fault.
pub(crate) fn evaluate(
    alloc: Global,
    arithmetic: &mut ShellArith,
    text: &str,
    said: &mut String,
) -> Result<(), AllocError> {
    match arithmetic.evaluate(alloc, text) {
        Ok(value) => {
            let added = said.push_str(value.as_str());
            drop(value);
            added
        }
        Err(fault) => tell(fault, said),
    }
}

/// Says the words by which the one at a cursor may go on, behind the places where it begins and ends.
pub(crate) fn complete(
    alloc: Global,
    arithmetic: &ShellArith,
    code: &str,
    cursor: u64,
    said: &mut String,
) -> Result<(), AllocError> {
    match arithmetic.complete(alloc, code, cursor) {
        Ok(completion) => {
            let added = add_completion(&completion, said);
            drop(completion);
            added
        }
        Err(fault) => tell(fault, said),
    }
}

/// Adds the places of a word, and the words by which it may go on.
fn add_completion(completion: &Completion, said: &mut String) -> Result<(), AllocError> {
    write!(said, "{} {}:", completion.start, completion.end)?;
    for word in completion.matches.as_slice() {
        write!(said, " {}", word.as_str())?;
    }
    Ok(())
}

/// Says what is shown of the word at a cursor.
pub(crate) fn inspect(
    alloc: Global,
    arithmetic: &ShellArith,
    code: &str,
    cursor: u64,
    said: &mut String,
) -> Result<(), AllocError> {
    match arithmetic.inspect(alloc, code, cursor) {
        Ok(Some(text)) => {
            let added = said.push_str(text.as_str());
            drop(text);
            added
        }
        Ok(None) => said.push_str("nothing"),
        Err(fault) => tell(fault, said),
    }
}

/// Says whether a text is a whole cell.
pub(crate) fn judge(
    alloc: Global,
    arithmetic: &ShellArith,
    text: &str,
    said: &mut String,
) -> Result<(), AllocError> {
    match arithmetic.is_complete(alloc, text) {
        Ok(Completeness::Complete) => said.push_str("complete"),
        Ok(Completeness::Incomplete) => said.push_str("incomplete"),
        Ok(Completeness::Invalid) => said.push_str("invalid"),
        Err(fault) => tell(fault, said),
    }
}
