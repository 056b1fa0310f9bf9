//! A read, and a write, of an exchange.

ghost use Rattle.std.specs.Prelude.{◌≡◌, ◌+◌, ◌<◌, ◌≤◌, [], length, take, IfOk, IfErr};
ghost use Rattle.zmtp_connection.specs.Exchange.{Leg, Reading, source_at};
ghost use Rattle.zmtp_connection.specs.Steps.{IsStop, PutsAll};

use crate::end::ConnectionEnd;
use crate::fault::ConnectionFault;
use zmtp_wire::{Inlet, Outlet, ReadFailed, WriteFailed, write_all};

/// Reads the next octets, one at least. One read is one turn.
///
/// # Errors
///
/// `Eof` if no octet is left, `Failed` with `Read` if the read failed, and with `Turns` if no turn is left.
pub(crate) fn read_turn<R: Inlet>(
    reader: &mut R,
    into: &mut [u8],
    turns: &mut u64,
) -> Result<usize, ConnectionEnd>
    requires { 0 < length into.old }
    ensures ok { IfOk result (λ count. (0 < count) × (count ≤ length into.new) × (turns.new < turns.old)
        × Leg (source_at (R.inflow reader.old) turns.old) (source_at (R.inflow reader.new) turns.new)
        (take count into.new)) }
    ensures one { IfOk result (λ _. turns.old ≡ turns.new + 1) }
    ensures err { IfErr result (λ end. IsStop end
        × Reading (source_at (R.inflow reader.old) turns.old) (source_at (R.inflow reader.new) turns.new) [] end) }
{
    if *turns == 0 {
        return Err(ConnectionEnd::Failed(ConnectionFault::Turns));
    }
    *turns -= 1;
    match reader.read(into) {
        Ok(0) => Err(ConnectionEnd::Eof),
        Ok(count) => Ok(count),
        Err(ReadFailed) => Err(ConnectionEnd::Failed(ConnectionFault::Read)),
    }
}

/// Writes all of the octets.
///
/// # Errors
///
/// `Failed` with `Write`, if a beginning of them was written.
pub(crate) fn put<W: Outlet>(writer: &mut W, octets: &[u8]) -> Result<(), ConnectionEnd>
    ensures { PutsAll (W.outflow writer.old) (W.outflow writer.new) octets.now result }
{
    match write_all(writer, octets) {
        Ok(()) => Ok(()),
        Err(WriteFailed) => Err(ConnectionEnd::Failed(ConnectionFault::Write)),
    }
}
