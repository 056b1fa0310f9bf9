//! Shell arithmetic, line by line: each line of standard input is a case, and is printed with its answer behind it.
//!
//! A case is a word, what the word wants, and a text, in which `%` and two digits are an octet; a space stands between
//! each two. `cell` runs a text in a fresh interpreter, `next` in the one of the line before; `count` is `cell` told
//! short, by how many lines there are and the last of them; `begin` only reads a text, and tells its steps. `complete`
//! and `inspect` want a cursor; `judge` says whether a text is a whole cell; `evaluate` evaluates one in the
//! interpreter of the line before; `info` is what the language says of itself. `tokens` cuts a text, and `tree` reads
//! one as a statement. `fault` wants a number, and tells the words of the evaluator's fault that becomes that one.
//!
//! `repeat` wants a number, a text and another case, and puts the text in front of that case's text so many times. An
//! empty line and one that begins with `#` are printed as they are.
#![tactic(auto)]

mod case;
mod reading;
mod running;
mod words;

use arith_shell::ShellArith;
use case::Case;
use std::alloc::{AllocError, Global};
use std::{io, str};

/// Reads standard input and prints each case with its answer.
fn main(rt: HostRuntime) -> io::Result<()> {
    let input = io::read_to_string(rt.alloc(), rt.reader())?;
    let mut arithmetic = ShellArith::new(rt.alloc());
    let printed = print_all(&rt, &mut arithmetic, input.as_str());
    drop(arithmetic);
    drop(input);
    printed
}

/// Prints each line with its answer.
fn print_all<R: Print + AllocGlobal>(
    rt: &R,
    arithmetic: &mut ShellArith,
    input: &str,
) -> io::Result<()> {
    for line in input.lines() {
        print_line(rt, arithmetic, line)?;
    }
    Ok(())
}

/// Prints a line, with its answer if it is a case.
fn print_line<R: Print + AllocGlobal>(
    rt: &R,
    arithmetic: &mut ShellArith,
    line: &str,
) -> io::Result<()> {
    let Some(case) = Case::read(line) else {
        return println!(rt; "{line}");
    };
    let mut said = String::new(rt.alloc());
    let printed = match answer(rt.alloc(), arithmetic, case, &mut said) {
        Ok(()) => println!(rt; "{line} -> {said}"),
        Err(AllocError) => Err(io::Error::from(AllocError)),
    };
    drop(said);
    printed
}

/// Says what a case comes to.
fn answer(
    alloc: Global,
    arithmetic: &mut ShellArith,
    case: Case<'_>,
    said: &mut String,
) -> Result<(), AllocError> {
    let octets = case.octets(alloc)?;
    let answered = match str::from_utf8(&octets) {
        Ok(text) => answer_text(alloc, arithmetic, case, text, said),
        Err(_) => said.push_str("no text"),
    };
    drop(octets);
    answered
}

/// Says what a case comes to, whose text is this one.
fn answer_text(
    alloc: Global,
    arithmetic: &mut ShellArith,
    case: Case<'_>,
    text: &str,
    said: &mut String,
) -> Result<(), AllocError> {
    match case.word {
        "tokens" => reading::cut(alloc, text, said),
        "tree" => reading::tree(alloc, text, said),
        "fault" => words::of_fault(case.number, said),
        "info" => words::info(alloc, arithmetic, said),
        "judge" => running::judge(alloc, arithmetic, text, said),
        "complete" => running::complete(alloc, arithmetic, text, case.number, said),
        "inspect" => running::inspect(alloc, arithmetic, text, case.number, said),
        _ => run_text(alloc, arithmetic, case.word, text, said),
    }
}

/// Says what a case comes to that may run something.
fn run_text(
    alloc: Global,
    arithmetic: &mut ShellArith,
    word: &str,
    text: &str,
    said: &mut String,
) -> Result<(), AllocError> {
    match word {
        "cell" => running::fresh(alloc, arithmetic, text, said),
        "next" => running::run(alloc, arithmetic, text, said),
        "count" => running::count(alloc, arithmetic, text, said),
        "begin" => running::begin(alloc, arithmetic, text, said),
        "evaluate" => running::evaluate(alloc, arithmetic, text, said),
        _ => said.push_str("no such case"),
    }
}
