//! Hearing a peer: what it says after its READY is put into an intake.

ghost use Rattle.std.specs.Prelude.{◌≡◌, ℕ, List, Option, None};
ghost use Rattle.zmtp_wire.specs.declared.fault.WireFault.{WireFault};
ghost use Rattle.zmtp_wire.specs.declared.traffic.Traffic.{Traffic};
ghost use Rattle.zmtp_connection.specs.Exchange.{source_at};
ghost use Rattle.zmtp_connection.specs.Open.{Holds, IsLeft, once_heard};
ghost use Rattle.zmtp_connection.specs.Intake.{IntakeStep, Grows, put_by, FillsAll};

use crate::end::{ConnectionEnd, Ending};
use crate::fault::ConnectionFault;
use crate::listening::{Listener, listen};
use crate::shaking::OpenPeer;
use std::alloc::{AllocError, Global};
use zmtp_wire::{Inlet, Traffic, WireFault};

/// What the traffic of a peer is put into.
pub trait Intake {
    /// One step: what the intake was, the traffic, what the intake is then, and whether the traffic was put.
    ghost takes: { IntakeStep Self };

    /// The traffic that was put so far, if the intake tells it.
    ghost told: { Self → Option (List Traffic) };

    /// The ghost names of the references that the intake holds, which no step changes.
    ghost names: { Self → List ℕ };

    /// Takes note of how many octets came after the last whole traffic, which itself is put after that. It changes
    /// nothing that contracts see.
    fn note_unfinished(&self, _octets: usize) {}

    /// Puts traffic, and answers whether it was put.
    ///
    /// # Errors
    ///
    /// If memory was refused. The traffic wasn't put.
    fn put(&mut self, traffic: Traffic) -> Result<bool, AllocError>
        ensures names { names self.new ≡ names self.old }
        ensures takes { takes self.old traffic self.new result }
        ensures told { Grows (told self.old) (told self.new) (put_by traffic result) };
}

/// An intake as a listener.
#[derive(Drop)]
struct Filling<'i, I> {
    /// What traffic is put into.
    intake: &'i mut I,
}

impl<I: Intake> Listener for Filling<'_, I> {
    type End = ConnectionEnd;

    ghost use Rattle.std.specs.Prelude.{◌∷◌};
    ghost use Rattle.zmtp_connection.specs.Intake.{FillsOne};

    ghost hears = { λ old traffic new result. FillsOne I.takes I.told old.intake.now traffic new.intake.now result };

    ghost names = { λ filling. filling.intake.ghost_name ∷ I.names filling.intake.now };

    fn note_unfinished(&self, octets: usize) {
        self.intake.note_unfinished(octets);
    }

    fn hear(&mut self, _alloc: Global, traffic: Traffic) -> Result<(), ConnectionEnd> {
        match self.intake.put(traffic) {
            Ok(true) => Ok(()),
            Ok(false) => Err(ConnectionEnd::Eof),
            Err(AllocError) => Err(ConnectionEnd::Failed(ConnectionFault::Memory)),
        }
    }
}

/// Hears an open peer: puts each traffic that it says after its READY into the intake, whole and in order. A command
/// ERROR isn't put, and ends hearing as `Wire` with `PeerError`. What came with READY is put first. If the intake says
/// no, hearing ends as `Eof`, and if it has no memory as `Failed` with `Memory`. At most `turns` reads are made.
///
/// A peer is heard once: any end is for good, and nothing is left to hear. A further call reads nothing, puts nothing,
/// and ends as `Wire` with `Spent`.
pub fn hear<R: Inlet, I: Intake>(
    alloc: Global,
    reader: &mut R,
    peer: &mut OpenPeer,
    intake: &mut I,
    turns: u64,
) -> ConnectionEnd
    ensures names { I.names intake.new ≡ I.names intake.old }
    ensures over { peer.new ≡ once_heard peer.old }
    ensures held { IsLeft peer.old.unheard }
    ensures fills { (before : List ℕ) → Holds peer.old before → (left : ℕ) × FillsAll I.takes I.told intake.old before
        (source_at (R.inflow reader.old) turns) (source_at (R.inflow reader.new) left) intake.new result }
    ensures spent { peer.old.unheard ≡ None → (result ≡ ConnectionEnd.Wire WireFault.Spent)
        × (R.inflow reader.new ≡ R.inflow reader.old) × (intake.new ≡ intake.old) × (peer.new ≡ peer.old) }
{
    let mut filling = Filling { intake };
    match listen(alloc, reader, &mut filling, peer, turns) {
        Ending::Connection(end) => end,
        Ending::Host(end) => end,
    }
}
