//! A cell, run to its end, and what is printed of it.

ghost use Rattle.std.specs.Prelude.{◌≡◌, ◌++◌, codes, OnOk, IfOk};
ghost use Rattle.std.specs.List.{flat_map};
ghost use Rattle.std.specs.Io.KnownBytes.{Appends};
ghost use Rattle.arith_cells.specs.Printed.{CellPrints, FoundMemory, IsReported, Prints, StepsPrint, fault_line};
ghost use Rattle.arith_cells.specs.Printed.{goes_on, line, next_text, output_text, step_text};

use interp_core::{InterpFault, Interpreter, Next, Output, Stepped, fault_words};
use std::alloc::{AllocError, Global};
use std::io::{self, Write};

/// Runs a cell, and prints what its steps write and then its value or its fault, each on a line of its own.
///
/// # Errors
///
/// Of the writer, or where memory was refused, to the interpreter too. A part may be printed then.
pub fn run_cell<I: Interpreter, W: Write>(
    alloc: Global,
    interpreter: &mut I,
    code: &str,
    writer: &mut W,
) -> io::Result<()>
    ensures { OnOk result (Prints (CellPrints I.meaning interpreter.old code.now)
        (W.contents writer.old) (W.contents writer.new) interpreter.new) }
{
    match interpreter.begin(alloc, code) {
        Ok(mut cell) => run_steps(alloc, interpreter, &mut cell, writer),
        Err(fault) => print_fault(alloc, &fault, writer),
    }
}

/// Runs the steps that a cell has left, up to the one that ends it.
fn run_steps<I: Interpreter, W: Write>(
    alloc: Global,
    interpreter: &mut I,
    cell: &mut I::Cell,
    writer: &mut W,
) -> io::Result<()>
    ensures { OnOk result (Prints (StepsPrint I.meaning interpreter.old cell.old)
        (W.contents writer.old) (W.contents writer.new) interpreter.new) }
{
    'steps: while interpreter.steps_left(cell) != 0 {
        let stepped = interpreter.step(alloc, cell);
        let printed = print_step(alloc, &stepped, writer);
        drop(stepped);
        if !printed? {
            return Ok(());
        }
    }
    Ok(())
}

/// Prints what a step writes, and what it comes to where it ends its cell. Tells whether the cell goes on.
#[tactic(auto, using(crate::proofs::PrintedLemmas::appends_then))]
fn print_step<W: Write>(alloc: Global, stepped: &Stepped, writer: &mut W) -> io::Result<bool>
    ensures text { OnOk result (Appends (W.contents writer.old) (W.contents writer.new) (step_text stepped.now)) }
    ensures answered { OnOk result (FoundMemory stepped.now.next) }
    ensures goes_on { IfOk result (λ more. more ≡ goes_on stepped.now.next) }
{
    print_outputs(stepped.outputs.as_slice(), writer)?;
    print_next(alloc, &stepped.next, writer)
}

/// Prints the value or the fault by which a step ends its cell. Tells whether the cell goes on.
fn print_next<W: Write>(alloc: Global, next: &Next, writer: &mut W) -> io::Result<bool>
    ensures text { OnOk result (Appends (W.contents writer.old) (W.contents writer.new) (next_text next.now)) }
    ensures answered { OnOk result (FoundMemory next.now) }
    ensures goes_on { IfOk result (λ more. more ≡ goes_on next.now) }
{
    match next {
        Next::More => return Ok(true),
        Next::Done(Some(value)) => print_line(value.as_str(), writer)?,
        Next::Done(None) => {}
        Next::Failed(fault) => print_fault(alloc, fault, writer)?,
    }
    Ok(false)
}

/// Prints what a step writes on standard output, and nothing else of its outputs.
fn print_outputs<W: Write>(outputs: &[Output], writer: &mut W) -> io::Result<()>
    ensures { OnOk result (Appends (W.contents writer.old) (W.contents writer.new) (flat_map output_text outputs.now)) }
{
    for output in outputs {
        match output {
            Output::Stdout(text) => writer.write_all(text.as_str().as_bytes())?,
            Output::Stderr(_) | Output::Display(..) | Output::DisplayHtml { .. } => {}
        }
    }
    Ok(())
}

/// Prints a text and a line feed.
fn print_line<W: Write>(text: &str, writer: &mut W) -> io::Result<()>
    ensures { OnOk result (Appends (W.contents writer.old) (W.contents writer.new) (line text.now)) }
{
    writer.write_all(text.as_bytes())?;
    writer.write_all(b"\n")
}

/// Prints a fault as `ename: evalue`, but for want of memory, which ends the program.
fn print_fault<W: Write>(alloc: Global, fault: &InterpFault, writer: &mut W) -> io::Result<()>
    ensures line { OnOk result (Appends (W.contents writer.old) (W.contents writer.new) (fault_line fault.now)) }
    ensures reported { OnOk result (IsReported fault.now) }
{
    if let InterpFault::OutOfMemory = fault {
        return Err(io::Error::from(AllocError));
    }
    let Ok((name, value)) = fault_words(alloc, fault) else {
        return Err(io::Error::from(AllocError));
    };
    let printed = print_words(name, value.as_str(), writer);
    drop(value);
    printed
}

/// Prints a name and what is said of it, as `ename: evalue`.
fn print_words<W: Write>(name: &str, value: &str, writer: &mut W) -> io::Result<()>
    ensures { OnOk result (Appends (W.contents writer.old) (W.contents writer.new)
        (name.now ++ codes ": " ++ line value.now)) }
{
    writer.write_all(name.as_bytes())?;
    writer.write_all(b": ")?;
    print_line(value, writer)
}
