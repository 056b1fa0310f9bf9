//! The words by which faults are reported.

ghost use Rattle.std.specs.Prelude.{◌≡◌, IfOk, IsErr};
ghost use Rattle.interp_core.specs.Fault.{fault_name, fault_value};
ghost use Rattle.interp_core.specs.declared.fault.InterpFault.TheVariants.{OutOfMemory};

use interp_core::{InterpFault, fault_words};
use listed::Text;
use std::alloc::{AllocError, Global};

/// The `ename` and the `evalue` of a fault.
pub(crate) fn error_words(alloc: Global, fault: &InterpFault) -> Result<(Text, Text), AllocError>
    ensures { IfOk result (λ words. (words.0 ≡ fault_name fault.now) × (words.1 ≡ fault_value fault.now)) }
{
    let Ok((ename, evalue)) = fault_words(alloc, fault) else {
        return Err(AllocError);
    };
    let ename = String::from_str(alloc, ename)?;
    Ok((Text::new(ename), evalue))
}

/// The `ename` and the `evalue` of a fault that isn't want of memory.
///
/// # Errors
///
/// Also if the fault is want of memory.
pub(crate) fn own_words(alloc: Global, fault: &InterpFault) -> Result<(Text, Text), AllocError>
    ensures words { IfOk result (λ words. (words.0 ≡ fault_name fault.now) × (words.1 ≡ fault_value fault.now)) }
    ensures memory { fault.now ≡ OutOfMemory → IsErr result }
{
    match fault {
        InterpFault::OutOfMemory => Err(AllocError),
        InterpFault::Syntax(_)
        | InterpFault::Overflow
        | InterpFault::ZeroDivision
        | InterpFault::Shift
        | InterpFault::TooDeep
        | InterpFault::Raised { .. }
        | InterpFault::Interrupted => error_words(alloc, fault),
    }
}
