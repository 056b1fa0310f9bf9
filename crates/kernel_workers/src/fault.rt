//! Why a kernel doesn't run.

ghost use Rattle.std.specs.Prelude.{◌≡◌};
ghost use Rattle.kernel_workers.specs.Running.{kernel_fault_number};

use iopub_queue::OpenFault;
use std::alloc::AllocError;
use thiserror::Error;

/// Why a kernel can't begin, or ended without what it is to leave.
#[derive(Clone, Copy, Debug, Error, PartialEq, Eq)]
pub enum KernelFault {
    /// The queue can't be opened, or no memory was left.
    #[error("the queue can't be opened, or no memory was left")]
    Queue(OpenFault),
    /// A thread can't be made: of a worker, or for the shutdown. For the latter it is also want of memory.
    #[error("no thread can be made")]
    NoThread,
}

impl KernelFault {
    /// The number of the fault: that of the queue's, or 65.
    pub fn number(&self) -> u8
        ensures { result ≡ kernel_fault_number self.now }
    {
        match self {
            KernelFault::Queue(fault) => fault.number(),
            KernelFault::NoThread => 65,
        }
    }
}

impl From<AllocError> for KernelFault {
    ghost use Rattle.iopub_queue.specs.declared.fault.OpenFault.TheVariants.{OutOfMemory};
    ghost use Rattle.kernel_workers.specs.declared.fault.KernelFault.TheVariants.{Queue};

    ghost from_gives = { λ _ fault. fault ≡ Queue OutOfMemory };

    fn from(_error: AllocError) -> KernelFault {
        KernelFault::Queue(OpenFault::OutOfMemory)
    }
}

impl From<OpenFault> for KernelFault {
    ghost use Rattle.kernel_workers.specs.declared.fault.KernelFault.TheVariants.{Queue};

    ghost from_gives = { λ opening fault. fault ≡ Queue opening };

    fn from(fault: OpenFault) -> KernelFault {
        KernelFault::Queue(fault)
    }
}
