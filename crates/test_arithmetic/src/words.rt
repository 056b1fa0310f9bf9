//! What the language says of itself, and what its faults say.

use arith_shell::ShellArith;
use arith_value::ValueFault;
use interp_core::{Info, InterpFault, Interpreter};
use std::alloc::{AllocError, Global};

/// Says what the language says of itself.
pub(crate) fn info(
    alloc: Global,
    arithmetic: &ShellArith,
    said: &mut String,
) -> Result<(), AllocError> {
    match arithmetic.info(alloc) {
        Ok(info) => {
            let added = add_info(&info, said);
            drop(info);
            added
        }
        Err(fault) => tell(fault, said),
    }
}

/// Adds the name, the version, the type, the ending and the line of a language.
fn add_info(info: &Info, said: &mut String) -> Result<(), AllocError> {
    let (name, version) = (info.name.as_str(), info.version.as_str());
    let (kind, ending) = (info.mimetype.as_str(), info.file_extension.as_str());
    let banner = info.banner.as_str();
    write!(said, "{name}, {version}, {kind}, {ending}, {banner}")
}

/// Says a fault as its number, and its place where it is one of syntax.
pub(crate) fn tell(fault: InterpFault, said: &mut String) -> Result<(), AllocError> {
    let number = fault.number();
    let place = place_of(&fault);
    drop(fault);
    match place {
        Some(place) => write!(said, "fault {number} at {place}"),
        None => write!(said, "fault {number}"),
    }
}

/// The place of a fault of syntax.
fn place_of(fault: &InterpFault) -> Option<u64> {
    match fault {
        InterpFault::Syntax(place) => Some(*place),
        InterpFault::Overflow
        | InterpFault::ZeroDivision
        | InterpFault::Shift
        | InterpFault::TooDeep
        | InterpFault::Interrupted
        | InterpFault::OutOfMemory
        | InterpFault::Raised { .. } => None,
    }
}

/// Says the words of the evaluator's fault that becomes the one of this number.
pub(crate) fn of_fault(number: u64, said: &mut String) -> Result<(), AllocError> {
    let fault = match number {
        51 => ValueFault::Overflow,
        52 => ValueFault::ZeroDivision,
        53 => ValueFault::Shift,
        _ => ValueFault::from(AllocError),
    };
    write!(said, "{fault}")
}
