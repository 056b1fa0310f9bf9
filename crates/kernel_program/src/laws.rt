//! A law of a program, the contract of a function that does nothing.

ghost use Rattle.kernel_program.specs.Profile.{IsStarted};

use crate::language::Language;

/// A server that reads a language's kernelspec starts its program, to serve a connection file.
pub fn law_program_is_started<L: Language>(_language: &L)
    ensures { IsStarted (L.profile _language.now) }
{}
