//! What a language brings along to its program.

ghost use Rattle.std.specs.Prelude.{◌≡◌, IfOk, IfErr};
ghost use Rattle.kernel_program.specs.declared.language.BeginFault.TheVariants.{OutOfMemory};
ghost use Rattle.kernel_program.specs.Profile.{IsRefusal, IsStarted, Profile};

use interp_core::Interpreter;
use listed::Text;
use std::alloc::{AllocError, Global};

/// Why there is no interpreter to begin with.
#[derive(Drop)]
pub enum BeginFault {
    /// For what this text tells a person, without the end of a line.
    Refused(Text),
    /// There was no memory.
    OutOfMemory,
}

impl From<AllocError> for BeginFault {
    ghost from_gives = { λ _ fault. fault ≡ OutOfMemory };

    fn from(_refused: AllocError) -> BeginFault {
        BeginFault::OutOfMemory
    }
}

/// A language, as its program says of itself what it is, and begins its interpreters.
pub trait Language {
    /// What runs the language's cells.
    type Interp: Interpreter + Drop + Send + 'static;

    /// What is known of the program.
    ghost profile: { Self → Profile Self.Interp };

    /// The program's name, by which a server starts it and by which it names itself to a person.
    fn name(&self) -> &'static str
        ensures { result.now ≡ (profile self.now).name };

    /// What the program is, in the words of its help.
    fn about(&self) -> &'static str;

    /// A run that a person can try, at the end of its help.
    fn example(&self) -> &'static str;

    /// The text of `kernel.json`, by which a server finds the kernel and starts it.
    fn kernelspec(&self) -> &'static str
        ensures { result.now ≡ (profile self.now).kernelspec };

    /// The interpreter of shell, which runs the cells; also that of a replay.
    ///
    /// # Errors
    ///
    /// `Refused` if the language has none to begin with, or `OutOfMemory`.
    fn shell(&self, alloc: Global) -> Result<Self::Interp, BeginFault>
        ensures begun { IfOk result (profile self.now).Begins }
        ensures refused { IfErr result (IsRefusal (profile self.now)) };

    /// The interpreter of control, which runs no cells.
    ///
    /// # Errors
    ///
    /// `Refused` if the language has none to begin with, or `OutOfMemory`.
    fn control(&self, alloc: Global) -> Result<Self::Interp, BeginFault>
        ensures { IfErr result (IsRefusal (profile self.now)) };

    /// The kernelspec is JSON, and has a server start the program.
    ghost starts: { (language : Self) → IsStarted (profile language) };
}
