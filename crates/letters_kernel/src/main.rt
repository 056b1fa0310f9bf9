//! `letters_kernel`: a kernel of a language of letters, for tests of what shell arithmetic doesn't bring. It has the
//! commands of every language's program.
#![tactic(auto)]

mod program;

use kernel_program::start;
use program::LettersProgram;
use std::process::ExitCode;

/// Starts the program of letters.
fn main(rt: HostRuntime) -> ExitCode {
    start(&rt, rt.process(), &mut rt.stderr(), &LettersProgram)
}
