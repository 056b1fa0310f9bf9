//! Why a kernel doesn't serve.

ghost use Rattle.std.specs.Prelude.{◌≡◌};
ghost use Rattle.kernel_serve.specs.Serving.{port_name};

use kernel_workers::KernelFault;
use std::alloc::{AllocError, AllocFailed};
use std::io::ErrorKind;
use thiserror::Error;

/// A port of a kernel.
#[derive(Clone, Copy, Debug, PartialEq, Eq)]
pub enum Port {
    /// Where cells and other requests come in.
    Shell,
    /// Where subscribers come in.
    Iopub,
    /// Where requests come in that mustn't wait for cells.
    Control,
    /// Where a client asks whether the kernel lives.
    Heartbeat,
}

impl Port {
    /// The name of the port.
    pub fn name(self) -> &'static str
        ensures { result.now ≡ port_name self }
    {
        match self {
            Port::Shell => "shell",
            Port::Iopub => "iopub",
            Port::Control => "control",
            Port::Heartbeat => "heartbeat",
        }
    }
}

/// Why a kernel doesn't serve.
#[derive(Clone, Copy, Debug, Error, PartialEq, Eq)]
pub enum ServeFault {
    /// The system refuses to bind a port, for a reason of this kind. It is the first such port, in the order shell,
    /// iopub, control, heartbeat.
    #[error("a port can't be bound")]
    Refused(Port, ErrorKind),
    /// The system doesn't say where a port listens.
    #[error("it isn't known where a port listens")]
    CannotBind(Port),
    /// No thread can be made.
    #[error("no thread can be made")]
    NoThread,
    /// The system gave no random octets for the session's id.
    #[error("no random octets are given")]
    NoRandomness,
    /// No memory was left.
    #[error("out of memory")]
    OutOfMemory,
}

impl From<AllocError> for ServeFault {
    fn from(_error: AllocError) -> ServeFault {
        ServeFault::OutOfMemory
    }
}

impl<T: Drop> From<AllocFailed<T>> for ServeFault {
    fn from(_error: AllocFailed<T>) -> ServeFault {
        ServeFault::OutOfMemory
    }
}

impl From<KernelFault> for ServeFault {
    fn from(fault: KernelFault) -> ServeFault {
        match fault {
            KernelFault::NoThread => ServeFault::NoThread,
            KernelFault::Queue(_) => ServeFault::OutOfMemory,
        }
    }
}
