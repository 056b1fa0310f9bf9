//! Why an expression has no value.

ghost use Rattle.std.specs.Prelude.{◌≡◌};
ghost use Rattle.arith_value.specs.declared.fault.ValueFault.TheVariants.{OutOfMemory};

use std::alloc::{AllocError, AllocFailed};
use thiserror::Error;

/// Why an expression has no value.
#[derive(Clone, Copy, Debug, PartialEq, Eq, Error)]
pub enum ValueFault {
    /// A result is below -2^63 or above 2^63 - 1.
    #[error("result outside 64 bits")]
    Overflow,
    /// A divisor is 0.
    #[error("division by zero")]
    ZeroDivision,
    /// A shift count is outside 0 to 63, or a negative value is shifted to the left.
    #[error("shift refused")]
    Shift,
    /// No memory was left.
    #[error("out of memory")]
    OutOfMemory,
}

impl From<AllocError> for ValueFault {
    ghost from_gives = { λ _ e. e ≡ OutOfMemory };

    fn from(_e: AllocError) -> ValueFault {
        ValueFault::OutOfMemory
    }
}

impl<T: Drop> From<AllocFailed<T>> for ValueFault {
    ghost from_gives = { λ _ e. e ≡ OutOfMemory };

    fn from(_e: AllocFailed<T>) -> ValueFault {
        ValueFault::OutOfMemory
    }
}
