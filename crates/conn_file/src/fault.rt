//! Why a connection file is refused.

ghost use Rattle.std.specs.Prelude.{◌≡◌};
ghost use Rattle.conn_file.specs.declared.fault.ConnFault.TheVariants.{OutOfMemory};

use crate::field::Field;
use std::alloc::{AllocError, AllocFailed};
use std::error::Error;
use std::fmt::{self, Display, Formatter, Write};

/// Why a connection file is refused: the first reason, in the order of the fields.
#[derive(Clone, Copy, Debug, PartialEq, Eq)]
pub enum ConnFault {
    /// The text is no JSON, or no object.
    NotJson,
    /// A field is missing, or has to be a text and is none.
    Missing(Field),
    /// A port is there, and no whole number from 1 to 65535.
    Port(Field),
    /// The transport isn't `tcp`.
    Transport,
    /// The signature scheme isn't `hmac-sha256`.
    Scheme,
    /// No memory was left.
    OutOfMemory,
}

impl ConnFault {
    ghost use Rattle.conn_file.specs.Connection.{conn_fault_number};

    /// The number of the fault, from 40 on in the order of the variants.
    pub fn number(self) -> u8
        ensures { result ≡ conn_fault_number self }
    {
        match self {
            ConnFault::NotJson => 40,
            ConnFault::Missing(_) => 41,
            ConnFault::Port(_) => 42,
            ConnFault::Transport => 43,
            ConnFault::Scheme => 44,
            ConnFault::OutOfMemory => 45,
        }
    }
}

impl Display for ConnFault {
    fn fmt<W: Write>(&self, f: &mut Formatter<W>) -> fmt::Result {
        match self {
            ConnFault::NotJson => f.write_str("the file is no JSON object"),
            ConnFault::Missing(field) => write_field(f, *field, " has to be there, and to be "),
            ConnFault::Port(field) => write_field(f, *field, " has to be "),
            ConnFault::Transport => write_field(f, Field::Transport, " has to be "),
            ConnFault::Scheme => write_field(f, Field::SignatureScheme, " has to be "),
            ConnFault::OutOfMemory => f.write_str("out of memory"),
        }
    }
}

/// Writes which field has to be what, with these words between.
fn write_field<W: Write>(f: &mut Formatter<W>, field: Field, between: &str) -> fmt::Result {
    f.write_str("field ")?;
    f.write_str(field.name())?;
    f.write_str(between)?;
    f.write_str(field.expected())
}

impl Error for ConnFault {}

impl From<AllocError> for ConnFault {
    ghost from_gives = { λ _ fault. fault ≡ OutOfMemory };

    fn from(_refused: AllocError) -> ConnFault {
        ConnFault::OutOfMemory
    }
}

impl<T: Drop> From<AllocFailed<T>> for ConnFault {
    ghost from_gives = { λ _ fault. fault ≡ OutOfMemory };

    fn from(_refused: AllocFailed<T>) -> ConnFault {
        ConnFault::OutOfMemory
    }
}
