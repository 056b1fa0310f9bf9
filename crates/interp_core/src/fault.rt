//! Why an interpreter has no answer, and how that is reported.

ghost use Rattle.std.specs.Prelude.{◌≡◌, MatchResult};
ghost use Rattle.interp_core.specs.declared.fault.InterpFault.TheVariants.{OutOfMemory};
ghost use Rattle.interp_core.specs.Fault.{interp_fault_number, fault_name, fault_value};

use listed::Text;
use std::alloc::{AllocError, AllocFailed, Global};
use std::error::Error;
use std::fmt::{self, Display, Formatter};

/// Why an interpreter has no answer.
#[derive(Debug, Drop)]
pub enum InterpFault {
    /// The text has no reading from this place on, which is a number of code points.
    Syntax(u64),
    /// A result is below -2^63 or above 2^63 - 1.
    Overflow,
    /// A divisor is 0.
    ZeroDivision,
    /// A shift count is outside 0 to 63, or a negative value is shifted to the left.
    Shift,
    /// A statement has more than 200 operators.
    TooDeep,
    /// The cell was interrupted between two steps. No interpreter answers this: who runs the cell does.
    Interrupted,
    /// No memory was left.
    OutOfMemory,
    /// What the language itself says.
    Raised {
        /// The name of the fault, its `ename`.
        name: Text,
        /// What is said of it, its `evalue`.
        value: Text,
    },
}

impl InterpFault {
    /// The number of the fault, from 50 on in the order of the variants.
    pub fn number(&self) -> u8
        ensures { result ≡ interp_fault_number self.now }
    {
        match self {
            InterpFault::Syntax(_) => 50,
            InterpFault::Overflow => 51,
            InterpFault::ZeroDivision => 52,
            InterpFault::Shift => 53,
            InterpFault::TooDeep => 54,
            InterpFault::Interrupted => 55,
            InterpFault::OutOfMemory => 56,
            InterpFault::Raised { .. } => 57,
        }
    }

    /// The name of the fault, an `ename`.
    pub fn name(&self) -> &str
        ensures { result.now ≡ fault_name self.now }
    {
        match self {
            InterpFault::Syntax(_) => "SyntaxError",
            InterpFault::Overflow => "OverflowError",
            InterpFault::ZeroDivision => "ZeroDivisionError",
            InterpFault::Shift => "ShiftError",
            InterpFault::TooDeep => "TooDeep",
            InterpFault::Interrupted => "Interrupted",
            InterpFault::OutOfMemory => "OutOfMemory",
            InterpFault::Raised { name, .. } => name.as_str(),
        }
    }
}

/// What is said of a fault, an `evalue`.
impl Display for InterpFault {
    ghost use Rattle.std.specs.Prelude.{Some};
    ghost use Rattle.interp_core.specs.Fault.{fault_value};

    ghost output = { λ fault. Some (fault_value fault) };

    fn fmt<W: fmt::Write>(&self, f: &mut Formatter<W>) -> fmt::Result {
        match self {
            InterpFault::Syntax(place) => write!(f, "syntax error at {place}"),
            InterpFault::Overflow => f.write_str("result outside 64 bits"),
            InterpFault::ZeroDivision => f.write_str("division by zero"),
            InterpFault::Shift => f.write_str("shift refused"),
            InterpFault::TooDeep => f.write_str("more than 200 operators"),
            InterpFault::Interrupted => f.write_str("interrupted"),
            InterpFault::OutOfMemory => f.write_str("out of memory"),
            InterpFault::Raised { value, .. } => f.write_str(value.as_str()),
        }
    }
}

impl Error for InterpFault {}

/// The `ename` and the `evalue` of a fault, by which 'Messaging in Jupyter' reports an error.
///
/// # Errors
///
/// `OutOfMemory` if there is none for the words.
pub fn fault_words(alloc: Global, fault: &InterpFault) -> Result<(&str, Text), InterpFault>
    ensures { MatchResult result (λ words. (words.0.now ≡ fault_name fault.now) × (words.1 ≡ fault_value fault.now))
        (λ refused. refused ≡ OutOfMemory) }
{
    let value = format!(in alloc; "{fault}")?;
    Ok((fault.name(), Text::new(value)))
}

impl From<AllocError> for InterpFault {
    ghost from_gives = { λ _ e. e ≡ OutOfMemory };

    fn from(_e: AllocError) -> InterpFault {
        InterpFault::OutOfMemory
    }
}

impl<T: Drop> From<AllocFailed<T>> for InterpFault {
    ghost from_gives = { λ _ e. e ≡ OutOfMemory };

    fn from(_e: AllocFailed<T>) -> InterpFault {
        InterpFault::OutOfMemory
    }
}
