//! Letters as the language of a program.

ghost use Rattle.letters_kernel.specs.Program.{letters, letters_are_started};

use kernel_program::{BeginFault, Language};
use std::alloc::Global;
use test_examples::Letters;

/// The language of the program: letters, for which memory is found.
#[derive(Clone, Copy, Debug)]
pub struct LettersProgram;

impl Language for LettersProgram {
    type Interp = Letters;

    ghost profile = { λ _. letters };

    fn name(&self) -> &'static str {
        "letters_kernel"
    }

    fn about(&self) -> &'static str {
        "A Jupyter kernel of a language of letters, for tests"
    }

    fn example(&self) -> &'static str {
        concat!(
            "Example: a peer that greets, and then is gone\n",
            "  { echo ff00000000000000017f 0300 4e554c4c; printf '%096d' 0; } | letters_kernel replay",
        )
    }

    fn kernelspec(&self) -> &'static str {
        concat!(
            r#"{"argv":["letters_kernel","serve","-f","{connection_file}"],"display_name":"Letters","#,
            r#""interrupt_mode":"message","language":"letters"}"#,
        )
    }

    fn shell(&self, _alloc: Global) -> Result<Letters, BeginFault> {
        Ok(Letters { is_wanting: false })
    }

    fn control(&self, _alloc: Global) -> Result<Letters, BeginFault> {
        Ok(Letters { is_wanting: false })
    }

    ghost starts = { λ _. letters_are_started };
}
