//! The faults of an engine.

ghost use Rattle.std.specs.Prelude.{◌≡◌};
ghost use Rattle.kernel_engine.specs.Fault.{engine_fault_number};

use jmsg_envelope::Envelope;
use std::alloc::{AllocError, AllocFailed};
use thiserror::Error;

/// Why a request couldn't be done.
#[derive(Debug, Drop, Error)]
pub enum EngineFault {
    /// The idle of the request before is owed, and the sink refused it again: the request comes back.
    #[error("an idle is owed")]
    OwedIdle(Envelope),
    /// No memory was left, or the sink refused.
    #[error("out of memory")]
    Memory,
    /// All ids were given.
    #[error("all message ids were given")]
    Worn,
}

impl EngineFault {
    /// The number of the fault: 70, 71 and 75. Those between are the faults of a connection.
    pub fn number(&self) -> u8
        ensures { result ≡ engine_fault_number self.now }
    {
        match self {
            EngineFault::OwedIdle(_) => 70,
            EngineFault::Memory => 71,
            EngineFault::Worn => 75,
        }
    }
}

impl From<AllocError> for EngineFault {
    ghost use Rattle.kernel_engine.specs.declared.fault.EngineFault.TheVariants.{Memory};

    ghost from_gives = { λ _ fault. fault ≡ Memory };

    fn from(_error: AllocError) -> EngineFault {
        EngineFault::Memory
    }
}

impl<T: Drop> From<AllocFailed<T>> for EngineFault {
    ghost use Rattle.kernel_engine.specs.declared.fault.EngineFault.TheVariants.{Memory};

    ghost from_gives = { λ _ fault. fault ≡ Memory };

    fn from(_error: AllocFailed<T>) -> EngineFault {
        EngineFault::Memory
    }
}
