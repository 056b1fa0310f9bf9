//! Cells from lines.

ghost use Rattle.std.specs.Prelude.{◌≡◌, ◌≢◌, OnOk, IfOk, IfSome};
ghost use Rattle.std.specs.Io.BufRead.{strip_last};
ghost use Rattle.arith_cells.specs.declared.status.Status.TheVariants.{Done, WordsRefused};
ghost use Rattle.arith_cells.specs.Printed.{InputPrints, LinePrints, Prints};

use crate::cell::run_cell;
use crate::status::Status;
use interp_core::Interpreter;
use std::alloc::Global;
use std::io::{self, BufRead, ErrorKind, Write};
use std::str;

/// Runs each line of an input as a cell, and tells how the program ends: done where all that the lines print was
/// printed and flushed, and else failed.
pub fn run_input<I: Interpreter, R: BufRead, W: Write>(
    alloc: Global,
    interpreter: &mut I,
    reader: &mut R,
    writer: &mut W,
) -> Status
    ensures done { result ≡ Done → IfSome (R.remaining reader.old)
        (λ input. Prints (InputPrints I.meaning interpreter.old input)
        (W.contents writer.old) (W.contents writer.new) interpreter.new) }
    ensures words { result ≢ WordsRefused }
{
    match run_lines(alloc, interpreter, reader, writer) {
        Ok(()) => Status::Done,
        Err(_) => Status::Failed,
    }
}

/// Runs each line as a cell, its line feed aside, up to the end of what is read, and flushes what was printed.
///
/// # Errors
///
/// Of the reader, also where a line is no UTF-8, of the writer, or of memory. What was printed before may be lost.
fn run_lines<I: Interpreter, R: BufRead, W: Write>(
    alloc: Global,
    interpreter: &mut I,
    reader: &mut R,
    writer: &mut W,
) -> io::Result<()>
    ensures { OnOk result (IfSome (R.remaining reader.old)
        (λ input. Prints (InputPrints I.meaning interpreter.old input)
        (W.contents writer.old) (W.contents writer.new) interpreter.new)) }
{
    let mut line = Vec::new(alloc);
    'lines: for _ in 0..u64::MAX {
        if !run_line(alloc, interpreter, reader, writer, &mut line)? {
            return writer.flush();
        }
    }
    Err(io::Error::other("input has no end"))
}

/// Runs the next line as a cell, or tells that there is none. It is read into `line`, whose octets are lost.
fn run_line<I: Interpreter, R: BufRead, W: Write>(
    alloc: Global,
    interpreter: &mut I,
    reader: &mut R,
    writer: &mut W,
    line: &mut Vec<u8>,
) -> io::Result<bool>
    ensures { IfOk result (λ more. IfSome (R.remaining reader.old) (λ input. LinePrints I.meaning more input
        interpreter.old (W.contents writer.old) (W.contents writer.new) interpreter.new (R.remaining reader.new))) }
{
    line.clear();
    if reader.read_until(b'\n', line)? == 0 {
        return Ok(false);
    }
    let Ok(code) = str::from_utf8(without_line_feed(line.as_slice())) else {
        return Err(io::Error::from(ErrorKind::InvalidData));
    };
    run_cell(alloc, interpreter, code, writer)?;
    Ok(true)
}

/// A line without the line feed that ends it, if one does.
fn without_line_feed(line: &[u8]) -> &[u8]
    ensures { result.now ≡ strip_last 10 line.now }
{
    if line.len() > 0 && line[line.len() - 1] == b'\n' {
        &line[..line.len() - 1]
    } else {
        line
    }
}
