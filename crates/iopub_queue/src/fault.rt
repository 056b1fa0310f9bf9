//! Why a queue isn't opened.

ghost use Rattle.std.specs.Prelude.{◌≡◌};
ghost use Rattle.iopub_queue.specs.Fault.{open_fault_number};

use thiserror::Error;

/// Why a queue wasn't opened.
#[derive(Clone, Copy, Debug, PartialEq, Eq, Error)]
pub enum OpenFault {
    /// There are to be no publishers, or more than 64.
    #[error("a queue has 1 to 64 publishers")]
    Count,
    /// The queue is to have no place, or more than 65,536.
    #[error("a queue has 1 to 65536 places")]
    Capacity,
    /// An allocation was refused.
    #[error("out of memory")]
    OutOfMemory,
}

impl OpenFault {
    /// The number of the fault.
    pub fn number(self) -> u8
        ensures { result ≡ open_fault_number self }
    {
        match self {
            OpenFault::Count => 60,
            OpenFault::Capacity => 61,
            OpenFault::OutOfMemory => 62,
        }
    }
}
