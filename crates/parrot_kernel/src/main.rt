//! `parrot_kernel`: a kernel of a language of one's own. docs/LANGUAGES.md goes through it.
#![tactic(auto)]

ghost use Rattle.parrot_kernel.specs.Program.{parrot_is_started, parrot_profile};

use kernel_program::{BeginFault, Language, start};
use parrot_cells::Parrot;
use std::alloc::Global;
use std::process::ExitCode;

/// The program of the language.
pub struct ParrotProgram;

impl Language for ParrotProgram {
    type Interp = Parrot;

    ghost profile = { λ _. parrot_profile };

    fn name(&self) -> &'static str {
        "parrot-kernel"
    }

    fn about(&self) -> &'static str {
        "A Jupyter kernel of a parrot"
    }

    fn example(&self) -> &'static str {
        "Example: parrot-kernel serve -f kernel.json"
    }

    fn kernelspec(&self) -> &'static str {
        concat!(
            r#"{"argv":["parrot-kernel","serve","-f","{connection_file}"],"display_name":"Parrot","#,
            r#""interrupt_mode":"message","language":"parrot"}"#,
        )
    }

    fn shell(&self, alloc: Global) -> Result<Parrot, BeginFault> {
        Ok(Parrot::new(alloc))
    }

    fn control(&self, alloc: Global) -> Result<Parrot, BeginFault> {
        Ok(Parrot::new(alloc))
    }

    ghost starts = { λ _. parrot_is_started };
}

/// Starts the program.
fn main(rt: HostRuntime) -> ExitCode {
    start(&rt, rt.process(), &mut rt.stderr(), &ParrotProgram)
}
