//! Reading the body of a command.

ghost use Rattle.std.specs.Prelude.{◌≡◌, ◌⊎◌, IfOk, IfErr};
ghost use Rattle.zmtp_wire.specs.Grammar.{IsBadCommand};
ghost use Rattle.zmtp_wire.specs.Pending.{IsCommandOf};
ghost use Rattle.zmtp_wire.specs.declared.fault.WireFault.TheVariants.{OutOfMemory, Command};

use crate::fault::WireFault;
use crate::traffic::Traffic;
use listed::Octets;
use std::alloc::Global;

/// The command that a frame's body is. The body becomes what stands after the name, and the name alone is copied.
pub(crate) fn command_of(alloc: Global, body: Vec<u8>) -> Result<Traffic, WireFault>
    ensures ok { IfOk result (IsCommandOf body.items) }
    ensures err { IfErr result (λ fault. (fault ≡ OutOfMemory)
        ⊎ ((fault ≡ WireFault.Command) × IsBadCommand body.items)) }
{
    let [size, named @ ..] = body.as_slice() else {
        return Err(WireFault::Command);
    };
    let size = usize::from(*size);
    if size == 0 || named.len() < size {
        return Err(WireFault::Command);
    }
    let name = Octets::new(Vec::from_slice(alloc, &named[..size])?);
    let mut rest = body;
    drop(rest.drain(..=size));
    let rest = Octets::new(rest);
    Ok(Traffic::Command(name, rest))
}
