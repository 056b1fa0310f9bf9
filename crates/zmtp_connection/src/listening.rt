//! Listening to a peer: one loop over what it says after its READY, which hands each whole traffic to a listener.

ghost use Rattle.std.specs.Prelude.{◌≡◌, ◌<◌, ℕ, List, length, None};
ghost use Rattle.zmtp_wire.specs.declared.fault.WireFault.{WireFault};
ghost use Rattle.zmtp_wire.specs.declared.traffic.Traffic.{Traffic};
ghost use Rattle.zmtp_connection.specs.Exchange.{source_at};
ghost use Rattle.zmtp_connection.specs.Listen.{Hearing, Listens};
ghost use Rattle.zmtp_connection.specs.Open.{Holds, IsLeft, IsLeftOf, once_heard};
ghost use Rattle.zmtp_connection.specs.Handing.{HandsSome, HandsFed, HearsPiece};

use crate::end::{ConnectionEnd, Ending};
use crate::fault::ConnectionFault;
use crate::shaking::{OpenPeer, Unheard};
use crate::turn::read_turn;
use listed::Row;
use std::alloc::Global;
use zmtp_wire::{Decoder, Fed, Inlet, Traffic, WireFault};

/// How many octets one read asks for. A connection holds as many while it waits.
const PIECE: usize = 4_096;

/// What hears the traffic of a peer.
pub trait Listener {
    /// How the listener may end listening.
    type End: Drop;

    /// One step: what the listener was, the traffic, what the listener is then, and how it ends listening, if so.
    ghost hears: { Hearing Self Self.End };

    /// The ghost names of the references that the listener holds, which no step changes.
    ghost names: { Self → List ℕ };

    /// Takes note of how many octets came after the last whole traffic, which itself is heard after that. It changes
    /// nothing that contracts see.
    fn note_unfinished(&self, _octets: usize) {}

    /// Hears traffic of the peer, which is never the command ERROR.
    ///
    /// # Errors
    ///
    /// If the listener ends listening: how. Nothing more is read then.
    fn hear(&mut self, alloc: Global, traffic: Traffic) -> Result<(), Self::End>
        ensures names { names self.new ≡ names self.old }
        ensures hears { hears self.old traffic self.new result };
}

/// Listens to an open peer: hands each traffic that it sends after its READY to the listener, whole and in order. What
/// came with READY is handed on first. A command ERROR ends listening, and so may the listener. The connection ends it
/// with the peer's octets, if they are refused, if a read fails, memory is refused or no turn is left. At most `turns`
/// reads are made.
///
/// A peer is heard once: any end is for good, and nothing is left to hear. A further call reads nothing, hands nothing
/// on, and ends as the connection with `Wire(Spent)`.
pub fn listen<R: Inlet, L: Listener>(
    alloc: Global,
    reader: &mut R,
    listener: &mut L,
    peer: &mut OpenPeer,
    turns: u64,
) -> Ending<L::End>
    ensures names { L.names listener.new ≡ L.names listener.old }
    ensures over { peer.new ≡ once_heard peer.old }
    ensures held { IsLeft peer.old.unheard }
    ensures listens { (before : List ℕ) → Holds peer.old before → (left : ℕ) × Listens L.hears listener.old before
        (source_at (R.inflow reader.old) turns) (source_at (R.inflow reader.new) left) listener.new result }
    ensures spent { peer.old.unheard ≡ None → (result ≡ Ending.Connection (ConnectionEnd.Wire WireFault.Spent))
        × (R.inflow reader.new ≡ R.inflow reader.old) × (listener.new ≡ listener.old) × (peer.new ≡ peer.old) }
{
    match peer.take() {
        Some(unheard) => listen_on(alloc, reader, listener, unheard, turns),
        None => Ending::Connection(ConnectionEnd::Wire(WireFault::Spent)),
    }
}

/// Listens with what is left to hear.
fn listen_on<R: Inlet, L: Listener>(
    alloc: Global,
    reader: &mut R,
    listener: &mut L,
    unheard: Unheard,
    turns: u64,
) -> Ending<L::End>
    ensures names { L.names listener.new ≡ L.names listener.old }
    ensures listens { (before : List ℕ) → IsLeftOf unheard before → (left : ℕ) × Listens L.hears listener.old before
        (source_at (R.inflow reader.old) turns) (source_at (R.inflow reader.new) left) listener.new result }
{
    let Unheard { fed, mut decoder } = unheard;
    listener.note_unfinished(decoder.held());
    if let Err(ending) = hand_fed(alloc, listener, fed) {
        drop(decoder);
        return ending;
    }
    let Ok(mut piece) = vec![in alloc; 0u8; PIECE] else {
        drop(decoder);
        return Ending::Connection(ConnectionEnd::Failed(ConnectionFault::Memory));
    };
    let mut left = turns;
    'pieces: loop {
        let heard = hear_piece(alloc, reader, listener, &mut decoder, &mut piece, &mut left);
        if let Err(ending) = heard {
            drop(piece);
            drop(decoder);
            return ending;
        }
    }
}

/// Reads a piece, and hands on what it brings. One read is one turn.
fn hear_piece<R: Inlet, L: Listener>(
    alloc: Global,
    reader: &mut R,
    listener: &mut L,
    decoder: &mut Decoder,
    piece: &mut [u8],
    turns: &mut u64,
) -> Result<(), Ending<L::End>>
    requires { 0 < length piece.old }
    ensures names { L.names listener.new ≡ L.names listener.old }
    ensures hears { HearsPiece L.hears listener.old listener.new decoder.old decoder.new
        (source_at (R.inflow reader.old) turns.old) (source_at (R.inflow reader.new) turns.new) result }
{
    match read_turn(reader, piece, turns) {
        Ok(count) => {
            let (octets, _) = piece.split_at(count);
            let fed = decoder.feed(octets);
            listener.note_unfinished(decoder.held());
            hand_fed(alloc, listener, fed)
        }
        Err(end) => Err(Ending::Connection(end)),
    }
}

/// Hands on what a piece brought, and then its fault.
fn hand_fed<L: Listener>(alloc: Global, listener: &mut L, fed: Fed) -> Result<(), Ending<L::End>>
    ensures names { L.names listener.new ≡ L.names listener.old }
    ensures hands { HandsFed L.hears listener.old fed.traffic fed.fault listener.new result }
{
    let Fed { traffic, fault } = fed;
    hand_traffic(alloc, listener, traffic)?;
    match fault {
        None => Ok(()),
        Some(fault) => Err(Ending::Connection(ConnectionEnd::Wire(fault))),
    }
}

/// Hands traffic on, up to a command ERROR.
fn hand_traffic<L: Listener>(
    alloc: Global,
    listener: &mut L,
    traffic: Row<Traffic>,
) -> Result<(), Ending<L::End>>
    ensures names { L.names listener.new ≡ L.names listener.old }
    ensures hands { HandsSome L.hears listener.old traffic listener.new result }
{
    for item in traffic.into_vec() {
        if item.is_error() {
            drop(item);
            return Err(Ending::Connection(ConnectionEnd::Wire(WireFault::PeerError)));
        }
        if let Err(end) = listener.hear(alloc, item) {
            return Err(Ending::Host(end));
        }
    }
    Ok(())
}
