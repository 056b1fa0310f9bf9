//! The faults of a text and of a value, as those of an interpreter.

ghost use Rattle.std.specs.Prelude.{◌≡◌};
ghost use Rattle.arith_shell.specs.ShellArithmetic.{from_read, from_value};

use arith_syntax::ReadFault;
use arith_value::ValueFault;
use interp_core::InterpFault;

/// The fault of a text.
pub(crate) fn from_read(fault: ReadFault) -> InterpFault
    ensures { result ≡ from_read fault }
{
    match fault {
        ReadFault::Syntax(place) => InterpFault::Syntax(place),
        ReadFault::TooDeep => InterpFault::TooDeep,
        ReadFault::OutOfMemory => InterpFault::OutOfMemory,
    }
}

/// The fault of a value.
pub(crate) fn from_value(fault: ValueFault) -> InterpFault
    ensures { result ≡ from_value fault }
{
    match fault {
        ValueFault::Overflow => InterpFault::Overflow,
        ValueFault::ZeroDivision => InterpFault::ZeroDivision,
        ValueFault::Shift => InterpFault::Shift,
        ValueFault::OutOfMemory => InterpFault::OutOfMemory,
    }
}
