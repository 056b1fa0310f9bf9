//! What the program promises, said of shell arithmetic: a law, the contract of a function that does nothing of its own.

ghost use Rattle.std.specs.Prelude.{◌≡◌, ℕ, List, Option, Some};
ghost use Rattle.arith_shell.specs.ShellArithmetic.{shell_meaning};
ghost use Rattle.conn_file.specs.Kernelspec.{kernel_words, started_by};
ghost use Rattle.kernel_program.specs.Program.{DoesOrder, GivenWords, RefusesToBegin};
ghost use Rattle.kernel_replay.specs.Session.{LinesHaveOneValue};
ghost use Rattle.jkernel.specs.Arithmetic.{arithmetic, kernelspec, program_name};
ghost use Rattle.jkernel.specs.Unraised.{NeverRaises};

use crate::arithmetic::Arithmetic;
use arith_shell::ShellArith;
use interp_core::Interpreter;
use kernel_program::{Language, law_program_is_started};
use kernel_replay::law_one_text;

/// The kernel of this program is one of shell arithmetic, which begins with no variable assigned.
pub fn law_kernel_is_of_arithmetic(language: &Arithmetic)
    // What `run` promises of the program of `language`, it promises of shell arithmetic, and of this name and kernelspec.
    ensures done { (words : GivenWords) (input left before after : Option (List ℕ))
        → DoesOrder ⟦<ShellArith as Interpreter>⟧.meaning (⟦<Arithmetic as Language>⟧.profile language.now) words input
        left before after
        → DoesOrder shell_meaning arithmetic words input left before after }

    // It never ends with 7.
    ensures begins { (words : GivenWords)
        → ¬ (RefusesToBegin (⟦<Arithmetic as Language>⟧.profile language.now) words) }

    // The kernelspec is JSON, and has a server start this program.
    ensures starts { started_by kernelspec ≡ Some (kernel_words program_name) }

    // The lines of an input are one text, for a given state to begin in and given courses and dates.
    ensures lines { LinesHaveOneValue shell_meaning }

    // It never answers 57: shell arithmetic raises no fault of its own.
    ensures raises { NeverRaises shell_meaning }
{
    law_program_is_started(language);
    law_one_text::<ShellArith>();
}
