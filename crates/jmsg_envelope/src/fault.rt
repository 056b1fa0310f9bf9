//! Why frames are no envelope.

ghost use Rattle.std.specs.Prelude.{◌≡◌};
ghost use Rattle.jmsg_envelope.specs.Fault.{envelope_fault_number};
ghost use Rattle.jmsg_envelope.specs.declared.fault.EnvelopeFault.TheVariants.{OutOfMemory};

use std::alloc::{AllocError, AllocFailed};
use thiserror::Error;

/// Why frames were not opened as a message, or a message was not sealed.
#[derive(Clone, Copy, Debug, PartialEq, Eq, Error)]
pub enum EnvelopeFault {
    /// No frame equals the delimiter.
    #[error("no frame is the delimiter <IDS|MSG>")]
    NoDelimiter,
    /// Fewer than five frames follow the delimiter.
    #[error("fewer than five frames follow the delimiter")]
    TooFewParts,
    /// There is a key, and the signature isn't that of the four parts.
    #[error("the signature is not that of the message")]
    BadSignature,
    /// The header is no JSON object with `msg_id` and `msg_type` as texts.
    #[error("the header is no JSON object with the texts msg_id and msg_type")]
    BadHeader,
    /// An allocation was refused.
    #[error("out of memory")]
    OutOfMemory,
}

impl EnvelopeFault {
    /// The number of this fault, for a report that has room for a number only.
    pub fn number(self) -> u8
        ensures { result ≡ envelope_fault_number self }
    {
        match self {
            EnvelopeFault::NoDelimiter => 20,
            EnvelopeFault::TooFewParts => 21,
            EnvelopeFault::BadSignature => 22,
            EnvelopeFault::BadHeader => 23,
            EnvelopeFault::OutOfMemory => 24,
        }
    }
}

impl From<AllocError> for EnvelopeFault {
    ghost from_gives = { λ _ fault. fault ≡ OutOfMemory };

    fn from(_refused: AllocError) -> EnvelopeFault {
        EnvelopeFault::OutOfMemory
    }
}

impl<T: Drop> From<AllocFailed<T>> for EnvelopeFault {
    ghost from_gives = { λ _ fault. fault ≡ OutOfMemory };

    fn from(_refused: AllocFailed<T>) -> EnvelopeFault {
        EnvelopeFault::OutOfMemory
    }
}
