//! The faults of the wire.

ghost use Rattle.std.specs.Prelude.{◌≡◌};
ghost use Rattle.zmtp_wire.specs.Fault.{wire_fault_number};
ghost use Rattle.zmtp_wire.specs.declared.fault.WireFault.TheVariants.{OutOfMemory};

use std::alloc::{AllocError, AllocFailed};
use std::error::Error;
use std::fmt;

/// Why a peer's octets are refused, or why the wire can't go on.
#[derive(Clone, Copy, Debug, PartialEq, Eq)]
pub enum WireFault {
    /// The greeting's signature isn't `FF`, eight octets of padding, `7F`.
    Signature,
    /// The greeting's major version is below 3.
    Version,
    /// The greeting's mechanism isn't NULL.
    Mechanism,
    /// A flags octet has a reserved bit, MORE with COMMAND, or COMMAND inside a message.
    Flags,
    /// A frame is longer than the limit.
    FrameTooLong,
    /// A message has more frames than the limit.
    TooManyFrames,
    /// The bodies of a message's frames are together longer than the limit.
    MessageTooLong,
    /// A command's body is malformed, or it isn't the command that is due.
    Command,
    /// The peer's socket type doesn't pair with ours.
    Pairing,
    /// The peer sent the command ERROR.
    PeerError,
    /// The reading had ended before, by a fault or by whoever read.
    Spent,
    /// No memory was left.
    OutOfMemory,
}

impl WireFault {
    /// The number of the fault, from 1 on in the order of the variants.
    pub fn number(self) -> u8
        ensures { result ≡ wire_fault_number self }
    {
        match self {
            WireFault::Signature => 1,
            WireFault::Version => 2,
            WireFault::Mechanism => 3,
            WireFault::Flags => 4,
            WireFault::FrameTooLong => 5,
            WireFault::TooManyFrames => 6,
            WireFault::MessageTooLong => 7,
            WireFault::Command => 8,
            WireFault::Pairing => 9,
            WireFault::PeerError => 10,
            WireFault::Spent => 11,
            WireFault::OutOfMemory => 12,
        }
    }
}

impl WireFault {
    /// What the fault is called.
    fn words(self) -> &'static str {
        match self {
            WireFault::Signature => "the greeting has no ZMTP signature",
            WireFault::Version => "the peer speaks a version of ZMTP before 3.0",
            WireFault::Mechanism => "the peer's security mechanism is not NULL",
            WireFault::Flags => "a frame's flags are refused",
            WireFault::FrameTooLong => "a frame is too long",
            WireFault::TooManyFrames => "a message has too many frames",
            WireFault::MessageTooLong => "a message is too long",
            WireFault::Command => "a command is malformed or out of place",
            WireFault::Pairing => "the peer's socket type does not pair",
            WireFault::PeerError => "the peer reported an error",
            WireFault::Spent => "the connection was refused before",
            WireFault::OutOfMemory => "out of memory",
        }
    }
}

impl fmt::Display for WireFault {
    fn fmt<W: fmt::Write>(&self, f: &mut fmt::Formatter<W>) -> fmt::Result {
        f.write_str(self.words())
    }
}

impl Error for WireFault {}

impl From<AllocError> for WireFault {
    ghost from_gives = { λ _ e. e ≡ OutOfMemory };

    fn from(_e: AllocError) -> WireFault {
        WireFault::OutOfMemory
    }
}

impl<T: Drop> From<AllocFailed<T>> for WireFault {
    ghost from_gives = { λ _ e. e ≡ OutOfMemory };

    fn from(_e: AllocFailed<T>) -> WireFault {
        WireFault::OutOfMemory
    }
}
