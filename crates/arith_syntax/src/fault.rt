//! Why a text has no reading.

ghost use Rattle.std.specs.Prelude.{◌≡◌};
ghost use Rattle.arith_syntax.specs.declared.fault.ReadFault.TheVariants.{OutOfMemory};

use std::alloc::{AllocError, AllocFailed};
use thiserror::Error;

/// Why a text has no reading.
#[derive(Clone, Copy, Debug, PartialEq, Eq, Error)]
pub enum ReadFault {
    /// The token at this place, which counts code points, is the first with which no statement goes on.
    #[error("syntax error at {0}")]
    Syntax(u64),
    /// A statement has more than 200 tokens that are neither names nor constants.
    #[error("more than 200 operators")]
    TooDeep,
    /// No memory was left.
    #[error("out of memory")]
    OutOfMemory,
}

impl From<AllocError> for ReadFault {
    ghost from_gives = { λ _ e. e ≡ OutOfMemory };

    fn from(_e: AllocError) -> ReadFault {
        ReadFault::OutOfMemory
    }
}

impl<T: Drop> From<AllocFailed<T>> for ReadFault {
    ghost from_gives = { λ _ e. e ≡ OutOfMemory };

    fn from(_e: AllocFailed<T>) -> ReadFault {
        ReadFault::OutOfMemory
    }
}
