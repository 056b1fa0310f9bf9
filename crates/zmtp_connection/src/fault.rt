//! The faults of a connection.

ghost use Rattle.std.specs.Prelude.{◌≡◌};
ghost use Rattle.zmtp_connection.specs.Fault.{connection_fault_number};

use thiserror::Error;

/// Why a connection can't go on.
#[derive(Clone, Copy, Debug, Error)]
pub enum ConnectionFault {
    /// No memory was left.
    #[error("out of memory")]
    Memory,
    /// A read failed.
    #[error("a read failed")]
    Read,
    /// A write failed, or took nothing.
    #[error("a write failed")]
    Write,
    /// As many reads were made as were allowed.
    #[error("no turn is left")]
    Turns,
}

impl ConnectionFault {
    /// The number of the fault, from 71 on in the order of the variants.
    pub fn number(self) -> u8
        ensures { result ≡ connection_fault_number self }
    {
        match self {
            ConnectionFault::Memory => 71,
            ConnectionFault::Read => 72,
            ConnectionFault::Write => 73,
            ConnectionFault::Turns => 74,
        }
    }
}
