//! Shell arithmetic as the language of a program.

ghost use Rattle.std.specs.Prelude.{◌≡◌};
ghost use Rattle.jkernel.specs.Arithmetic.{arithmetic, arithmetic_is_started, kernelspec};

use arith_shell::ShellArith;
use kernel_program::{BeginFault, Language};
use std::alloc::Global;

/// The text of `kernel.json`, by which a server starts this program. Needs no memory.
pub fn kernelspec_text() -> &'static str
    ensures { result.now ≡ kernelspec }
{
    concat!(
        r#"{"argv":["jkernel","serve","-f","{connection_file}"],"display_name":"Shell arithmetic","#,
        r#""interrupt_mode":"message","language":"sharith"}"#,
    )
}

/// The language of the program: shell arithmetic, in which no variable is assigned when a kernel begins.
#[derive(Clone, Copy, Debug)]
pub struct Arithmetic;

impl Language for Arithmetic {
    type Interp = ShellArith;

    ghost profile = { λ _. arithmetic };

    fn name(&self) -> &'static str {
        "jkernel"
    }

    fn about(&self) -> &'static str {
        "A Jupyter kernel whose promises are proved"
    }

    fn example(&self) -> &'static str {
        concat!(
            "Example: a peer that greets, and then is gone\n",
            "  { echo ff00000000000000017f 0300 4e554c4c; printf '%096d' 0; } | jkernel replay",
        )
    }

    fn kernelspec(&self) -> &'static str {
        kernelspec_text()
    }

    fn shell(&self, alloc: Global) -> Result<ShellArith, BeginFault> {
        Ok(ShellArith::new(alloc))
    }

    fn control(&self, alloc: Global) -> Result<ShellArith, BeginFault> {
        Ok(ShellArith::new(alloc))
    }

    ghost starts = { λ _. arithmetic_is_started };
}
