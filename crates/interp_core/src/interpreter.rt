//! The interface of an interpreter.

ghost use Rattle.std.specs.Prelude.{◌≡◌, ◌+◌, ◌<◌, []};
ghost use Rattle.interp_core.specs.Interpreter.{Answers, ByMemory, HasOneValue, IsEnd, Laws, Meaning, OnMemory};

use crate::answer::{Completeness, Completion, Info, Stepped};
use crate::fault::InterpFault;
use listed::Text;
use std::alloc::Global;

/// An interpreter of some language, which runs cells step by step.
///
/// What its calls answer are values of the language's definitions, its `meaning`, or want of memory. A definition may
/// have several: rows of a table that nobody ordered, for one.
pub trait Interpreter {
    /// A text that was read, with the steps that it has left.
    type Cell: Drop;

    /// What each call answers.
    ghost meaning: { Meaning Self Self.Cell };

    /// What the language says of itself.
    ///
    /// # Errors
    ///
    /// A fault of the language, or `OutOfMemory`.
    fn info(&self, alloc: Global) -> Result<Info, InterpFault>
        ensures { Answers (meaning.tells self.now) result };

    /// Reads a cell; none of its steps runs.
    ///
    /// # Errors
    ///
    /// A fault of the text; `OutOfMemory`, and then the interpreter is as it was.
    fn begin(&mut self, alloc: Global, code: &str) -> Result<Self::Cell, InterpFault>
        ensures answered { Answers (λ answer. meaning.begins self.old code.now answer self.new) result }
        ensures refused { OnMemory result (self.new ≡ self.old) };

    /// How many steps a cell has left; one that never had any is done, with no value. Needs no memory.
    fn steps_left(&self, cell: &Self::Cell) -> u64
        ensures { result ≡ meaning.steps cell.now };

    /// Runs one step of a cell that has some left. One that finds no memory has no outputs.
    fn step(&mut self, alloc: Global, cell: &mut Self::Cell) -> Stepped
        requires { 0 < meaning.steps cell.old }
        ensures stepped { ByMemory result.next ((result.outputs ≡ []) × meaning.breaks_off self.old cell.old self.new)
            (meaning.runs self.old cell.old result self.new cell.new) }
        ensures lessened { meaning.steps cell.new + 1 ≡ meaning.steps cell.old }
        ensures ended { meaning.steps cell.new ≡ 0 → IsEnd result.next };

    /// What may stand for the word before a cursor, which counts code points; one past the end is the end.
    ///
    /// # Errors
    ///
    /// A fault of the language, or `OutOfMemory`.
    fn complete(&self, alloc: Global, code: &str, cursor: u64) -> Result<Completion, InterpFault>
        ensures { Answers (meaning.completes self.now code.now cursor) result };

    /// What is known of the word at a cursor, if anything is.
    ///
    /// # Errors
    ///
    /// A fault of the language, or `OutOfMemory`.
    fn inspect(&self, alloc: Global, code: &str, cursor: u64) -> Result<Option<Text>, InterpFault>
        ensures { Answers (meaning.inspects self.now code.now cursor) result };

    /// Whether a text is a whole cell.
    ///
    /// # Errors
    ///
    /// A fault of the language, or `OutOfMemory`.
    fn is_complete(&self, alloc: Global, code: &str) -> Result<Completeness, InterpFault>
        ensures { Answers (meaning.judges self.now code.now) result };

    /// What an expression is worth, as text.
    ///
    /// # Errors
    ///
    /// A fault of the text or of its evaluation, or `OutOfMemory`.
    fn evaluate(&mut self, alloc: Global, text: &str) -> Result<Text, InterpFault>
        ensures answered { Answers (λ answer. meaning.evaluates self.old text.now answer self.new) result }
        ensures refused { OnMemory result (meaning.gives_up self.old text.now self.new) };

    /// A cell ends within the steps that it has left, and each fault is one that a definition may have.
    ghost laws: { Laws meaning };
}

/// An interpreter of a language whose definitions each have at most one value, so that a cell comes to the same
/// whenever it is run on the same state.
pub trait Determined: Interpreter {
    /// Each definition has at most one value.
    ghost once: { HasOneValue Self.Interpreter.meaning };
}
