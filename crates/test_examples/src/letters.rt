//! A language of a few lines.

ghost use Rattle.std.specs.Prelude.{◌≡◌, ◌⊎◌, ◌==◌, [], ◌∷◌, ◌++◌, IfOk, codes};
ghost use Rattle.interp_core.specs.declared.answer.Output.TheVariants.{Stdout, Stderr, Display, DisplayHtml};
ghost use Rattle.interp_core.specs.declared.fault.InterpFault.TheVariants.{OutOfMemory, Raised};
ghost use Rattle.test_examples.specs.Letters.{next_of, outputs_of};

use interp_core::{
    Completeness, Completion, Determined, Info, InterpFault, Interpreter, Next, Output, Stepped,
};
use listed::{Frames, Row, Text};
use std::alloc::{AllocError, Global};
use std::collections::VecDeque;
use std::marker::Model;

/// A language whose cells are letters, each of which is a step. `o`, `e` and `d` write what they are on standard
/// output, on standard error and on display, `b` the first two, and `v` at the end is a value. `p` and `q` display what
/// they are with two buffers: two octets, or 256, and none; `h` what it is as HTML too. `x` fails, and `r` by a fault of
/// the language's own. `m` finds no memory, and no memory is found to read `!`. An expression is worth its own text. All
/// else has a fault.
#[derive(Clone, Copy, Debug)]
pub struct Letters {
    /// Whether no memory is found for anything but cells.
    pub is_wanting: bool,
}

impl Letters {
    /// A fault of the language, or want of memory.
    fn fault(self, fault: InterpFault) -> InterpFault
        ensures { (result ≡ fault) ⊎ (result ≡ OutOfMemory) }
    {
        if self.is_wanting {
            InterpFault::OutOfMemory
        } else {
            fault
        }
    }
}

/// The letters of a cell that haven't run yet: a contract sees the list of them.
#[derive(Drop)]
pub struct Waiting {
    /// The letters, in their order.
    letters: VecDeque<u8>,
}

impl Model for Waiting {
    ghost use Rattle.std.specs.Prelude.{ℕ, List};

    ghost Value = { List ℕ };

    ghost view = { λ cell. cell.letters.items };
}

/// A text.
fn text(alloc: Global, text: &str) -> Result<Text, AllocError>
    ensures { IfOk result (λ owned. owned ≡ text.now) }
{
    Ok(Text::new(String::from_str(alloc, text)?))
}

/// What a letter writes.
fn outputs(alloc: Global, letter: u8) -> Result<Vec<Output>, AllocError>
    ensures { IfOk result (λ outputs. outputs.items ≡ outputs_of letter) }
{
    let mut outputs = Vec::new(alloc);
    match add_outputs(alloc, letter, &mut outputs) {
        Ok(()) => Ok(outputs),
        Err(AllocError) => {
            drop(outputs);
            Err(AllocError)
        }
    }
}

/// Adds what a letter writes.
fn add_outputs(alloc: Global, letter: u8, outputs: &mut Vec<Output>) -> Result<(), AllocError>
    ensures { IfOk result (λ _. outputs.new.items ≡ outputs.old.items ++ outputs_of letter) }
{
    match letter {
        b'o' => add_stdout(alloc, outputs),
        b'e' => add_stderr(alloc, outputs),
        b'b' => {
            add_stdout(alloc, outputs)?;
            add_stderr(alloc, outputs)
        }
        b'd' => add_display(alloc, outputs),
        b'h' => add_html(alloc, outputs),
        b'p' => add_shown(alloc, outputs, "p", &[0x00, 0xff]),
        b'q' => add_shown(alloc, outputs, "q", &[b'q'; 256]),
        _ => Ok(()),
    }
}

/// Adds what `o` writes.
fn add_stdout(alloc: Global, outputs: &mut Vec<Output>) -> Result<(), AllocError>
    ensures { IfOk result (λ _. outputs.new.items ≡ outputs.old.items ++ Stdout (codes "o") ∷ []) }
{
    add(outputs, Output::Stdout(text(alloc, "o")?))
}

/// Adds what `e` writes.
fn add_stderr(alloc: Global, outputs: &mut Vec<Output>) -> Result<(), AllocError>
    ensures { IfOk result (λ _. outputs.new.items ≡ outputs.old.items ++ Stderr (codes "e") ∷ []) }
{
    add(outputs, Output::Stderr(text(alloc, "e")?))
}

/// Adds what `d` writes.
fn add_display(alloc: Global, outputs: &mut Vec<Output>) -> Result<(), AllocError>
    ensures { IfOk result (λ _. outputs.new.items ≡ outputs.old.items ++ Display (codes "d") [] ∷ []) }
{
    let shown = text(alloc, "d")?;
    add(
        outputs,
        Output::Display(shown, Frames::new(Vec::new(alloc))),
    )
}

/// Adds what `h` writes.
fn add_html(alloc: Global, outputs: &mut Vec<Output>) -> Result<(), AllocError>
    ensures { IfOk result (λ _. outputs.new.items
        ≡ outputs.old.items ++ DisplayHtml (codes "h") (codes "<b>h</b>") ∷ []) }
{
    let shown = text(alloc, "h")?;
    match text(alloc, "<b>h</b>") {
        Ok(html) => add(outputs, Output::DisplayHtml { text: shown, html }),
        Err(AllocError) => {
            drop(shown);
            Err(AllocError)
        }
    }
}

/// Adds a text that is displayed, with a buffer of these octets and one of none.
fn add_shown(
    alloc: Global,
    outputs: &mut Vec<Output>,
    letter: &str,
    octets: &[u8],
) -> Result<(), AllocError>
    ensures { IfOk result (λ _. outputs.new.items
        ≡ outputs.old.items ++ Display letter.now (octets.now ∷ [] ∷ []) ∷ []) }
{
    let buffers = buffers(alloc, octets)?;
    match text(alloc, letter) {
        Ok(shown) => add(outputs, Output::Display(shown, buffers)),
        Err(AllocError) => {
            drop(buffers);
            Err(AllocError)
        }
    }
}

/// A buffer of these octets, and one of none.
fn buffers(alloc: Global, octets: &[u8]) -> Result<Frames, AllocError>
    ensures { IfOk result (λ buffers. buffers ≡ octets.now ∷ [] ∷ []) }
{
    let first = octets.to_vec(alloc)?;
    match Vec::from_array(alloc, [first, Vec::new(alloc)]) {
        Ok(buffers) => Ok(Frames::new(buffers)),
        Err(refused) => {
            drop(refused);
            Err(AllocError)
        }
    }
}

/// Adds an output.
fn add(outputs: &mut Vec<Output>, output: Output) -> Result<(), AllocError>
    ensures { IfOk result (λ _. outputs.new.items ≡ outputs.old.items ++ output ∷ []) }
{
    match outputs.push(output) {
        Ok(()) => Ok(()),
        Err(refused) => {
            drop(refused);
            Err(AllocError)
        }
    }
}

/// The fault by which `r` fails.
fn raised(alloc: Global) -> Result<InterpFault, AllocError>
    ensures { IfOk result (λ fault. fault ≡ Raised (codes "LetterError") (codes "r was run")) }
{
    let name = text(alloc, "LetterError")?;
    match text(alloc, "r was run") {
        Ok(value) => Ok(InterpFault::Raised { name, value }),
        Err(AllocError) => {
            drop(name);
            Err(AllocError)
        }
    }
}

/// How a cell goes on behind a letter.
fn next(alloc: Global, letter: u8, is_last: bool) -> Result<Next, AllocError>
    ensures { IfOk result (λ next. next ≡ next_of letter is_last) }
{
    if letter == b'x' {
        return Ok(Next::Failed(InterpFault::Overflow));
    }
    if letter == b'r' {
        return Ok(Next::Failed(raised(alloc)?));
    }
    if !is_last {
        return Ok(Next::More);
    }
    if letter == b'v' {
        return Ok(Next::Done(Some(text(alloc, "v")?)));
    }
    Ok(Next::Done(None))
}

/// What the step of a letter comes to.
fn stepped(alloc: Global, letter: u8, is_last: bool) -> Result<Stepped, AllocError>
    ensures { IfOk result (λ step. step ≡ record { outputs = outputs_of letter; next = next_of letter is_last }) }
{
    if letter == b'm' {
        return Err(AllocError);
    }
    let outputs = outputs(alloc, letter)?;
    let next = next(alloc, letter, is_last)?;
    Ok(Stepped {
        outputs: Row::new(outputs),
        next,
    })
}

impl Interpreter for Letters {
    type Cell = Waiting;

    ghost use Rattle.test_examples.specs.Letters.{letters_meaning, letters_laws};

    ghost meaning = { letters_meaning };

    fn info(&self, _alloc: Global) -> Result<Info, InterpFault> {
        Err(self.fault(InterpFault::Shift))
    }

    fn begin(&mut self, alloc: Global, code: &str) -> Result<Waiting, InterpFault> {
        if code == "!" {
            return Err(InterpFault::OutOfMemory);
        }
        Ok(Waiting {
            letters: VecDeque::from_vec(Vec::from_slice(alloc, code.as_bytes())?),
        })
    }

    fn steps_left(&self, cell: &Waiting) -> u64 {
        cell.letters.len() as u64
    }

    fn step(&mut self, alloc: Global, cell: &mut Waiting) -> Stepped {
        let Some(letter) = cell.letters.pop_front() else {
            unreachable!();
        };
        match stepped(alloc, letter, cell.letters.is_empty()) {
            Ok(stepped) => stepped,
            Err(AllocError) => Stepped {
                outputs: Row::new(Vec::new(alloc)),
                next: Next::Failed(InterpFault::OutOfMemory),
            },
        }
    }

    fn complete(
        &self,
        _alloc: Global,
        _code: &str,
        _cursor: u64,
    ) -> Result<Completion, InterpFault> {
        Err(self.fault(InterpFault::TooDeep))
    }

    fn inspect(
        &self,
        _alloc: Global,
        _code: &str,
        _cursor: u64,
    ) -> Result<Option<Text>, InterpFault> {
        Err(self.fault(InterpFault::Syntax(3)))
    }

    fn is_complete(&self, _alloc: Global, _code: &str) -> Result<Completeness, InterpFault> {
        Err(self.fault(InterpFault::ZeroDivision))
    }

    fn evaluate(&mut self, alloc: Global, text: &str) -> Result<Text, InterpFault> {
        if self.is_wanting {
            return Err(InterpFault::OutOfMemory);
        }
        Ok(Text::new(String::from_str(alloc, text)?))
    }

    ghost laws = { letters_laws };
}

impl Determined for Letters {
    ghost use Rattle.test_examples.specs.Letters.{letters_once};

    ghost once = { letters_once };
}
