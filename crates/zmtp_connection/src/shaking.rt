//! Shaking hands with a peer: greetings, and then READY (RFC 23, "Greeting" and "The NULL Security Mechanism").

ghost use Rattle.std.specs.Prelude.{◌≡◌, ◌≢◌, ◌<◌, ℕ, List, [], ◌∷◌, ◌++◌, length, Some, IfOk, IfErr};
ghost use Rattle.zmtp_wire.specs.Device.{Puts};
ghost use Rattle.zmtp_wire.specs.Greeting.{IsGreeting, greeting_octets};
ghost use Rattle.zmtp_wire.specs.Ready.{IsIdentity, IsReady, ready_octets};
ghost use Rattle.zmtp_connection.specs.Exchange.{Leg, Reading, Exchange, devices_at, source_at};
ghost use Rattle.zmtp_connection.specs.declared.shaking.Unheard.{Unheard};
ghost use Rattle.zmtp_connection.specs.Open.{IsLeft, ShakesHands, once_heard};
ghost use Rattle.zmtp_connection.specs.Steps.{IsStop, IsFed, IsNotMet, TurnsAway, BringsNothing, ComesLate, fresh};

use crate::end::ConnectionEnd;
use crate::fault::ConnectionFault;
use crate::turn::{put, read_turn};
use listed::{Octets, Row};
use std::alloc::Global;
use std::marker::Model;
use zmtp_wire::{
    Decoder, Fed, Inlet, Limits, Outlet, SocketType, Traffic, greeting, read_greeting,
    read_identity, read_ready, ready_text,
};

/// How many octets one read asks for until the peer's READY came.
const FIRST_PIECE: usize = 256;

/// What is left to hear of octets that came from a peer.
#[derive(Drop)]
pub(crate) struct Unheard {
    /// What the octets brought.
    pub(crate) fed: Fed,
    /// The decoder that reads on after them.
    pub(crate) decoder: Decoder,
}

/// What a peer's READY says of it.
#[derive(Drop)]
struct Introduction {
    /// The socket type of the peer.
    socket: SocketType,
    /// The identity of the peer, which is empty if it gave none.
    identity: Octets,
}

/// An open peer: its greeting and its READY were accepted. It is heard once: what came with its READY is left to hear
/// until then, and nothing afterwards.
#[derive(Drop)]
pub struct OpenPeer {
    /// The socket type of the peer.
    socket: SocketType,
    /// The identity of the peer, which is empty if it gave none.
    identity: Octets,
    /// What is left to hear, or none once the peer was heard.
    unheard: Option<Unheard>,
}

impl Model for OpenPeer {
    ghost use Rattle.zmtp_connection.specs.Open.{Open, IsLeft};

    ghost Value = { Open };

    ghost view = { λ peer. record { socket = peer.socket; identity = peer.identity; unheard = peer.unheard } };

    ghost invariant = { λ peer. IsLeft peer.unheard };
}

impl OpenPeer {
    /// The socket type of the peer.
    pub fn socket(&self) -> SocketType
        ensures { result ≡ self.now.socket }
    {
        self.socket
    }

    /// The identity that the peer gave itself in its READY: no octet if it gave none.
    pub fn identity(&self) -> &[u8]
        ensures { result.now ≡ self.now.identity }
    {
        self.identity.as_slice()
    }

    /// Takes what is left to hear, and leaves nothing.
    pub(crate) fn take(&mut self) -> Option<Unheard>
        ensures taken { result ≡ self.old.unheard }
        ensures none { self.new ≡ once_heard self.old }
        ensures left { IsLeft result }
    {
        self.unheard.take()
    }
}

/// Shakes hands with a peer. It writes our greeting whole before anything is read, reads the peer's, and writes our
/// READY if that is accepted. Then it reads the peer's READY, and nothing once that has come. Nothing more is written
/// to a peer that is refused. At most `turns` reads are made.
///
/// # Errors
///
/// `Eof` if the peer's octets end before its READY came whole. `Wire` if its greeting, the octets of its first traffic
/// or its READY are refused, or no memory was left for these. `Failed` if memory was refused, a read or a write failed,
/// or no turn is left.
pub fn shake<R: Inlet, W: Outlet>(
    alloc: Global,
    reader: &mut R,
    writer: &mut W,
    ours: SocketType,
    turns: u64,
) -> Result<OpenPeer, ConnectionEnd>
    ensures is_open { IfOk result (λ peer. (left : ℕ) × ShakesHands ours
        (devices_at (R.inflow reader.old) turns (W.outflow writer.old))
        (devices_at (R.inflow reader.new) left (W.outflow writer.new)) peer) }
    ensures turned_away { IfErr result (λ end. (left : ℕ) × Exchange (TurnsAway ours end)
        (devices_at (R.inflow reader.old) turns (W.outflow writer.old))
        (devices_at (R.inflow reader.new) left (W.outflow writer.new)) (Some end)) }
{
    let mut left = turns;
    shake_within(alloc, reader, writer, ours, &mut left)
}

/// Shakes hands with a peer, and takes the turns from those that are left.
pub(crate) fn shake_within<R: Inlet, W: Outlet>(
    alloc: Global,
    reader: &mut R,
    writer: &mut W,
    ours: SocketType,
    turns: &mut u64,
) -> Result<OpenPeer, ConnectionEnd>
    ensures is_open { IfOk result (λ peer. ShakesHands ours
        (devices_at (R.inflow reader.old) turns.old (W.outflow writer.old))
        (devices_at (R.inflow reader.new) turns.new (W.outflow writer.new)) peer) }
    ensures turned_away { IfErr result (λ end. Exchange (TurnsAway ours end)
        (devices_at (R.inflow reader.old) turns.old (W.outflow writer.old))
        (devices_at (R.inflow reader.new) turns.new (W.outflow writer.new)) (Some end)) }
{
    greet(alloc, reader, writer, ours, turns)?;
    let mut decoder = Decoder::new(alloc, Limits::usual());
    match read_first(reader, &mut decoder, turns) {
        Ok(fed) => meet(alloc, fed, decoder, ours),
        Err(end) => {
            drop(decoder);
            Err(end)
        }
    }
}

/// Writes our greeting, reads the peer's, and writes our READY if that is accepted.
fn greet<R: Inlet, W: Outlet>(
    alloc: Global,
    reader: &mut R,
    writer: &mut W,
    ours: SocketType,
    turns: &mut u64,
) -> Result<(), ConnectionEnd>
    ensures greeted { IfOk result (λ _. (opening : List ℕ) × (length opening ≡ 64) × IsGreeting opening
        × Leg (source_at (R.inflow reader.old) turns.old) (source_at (R.inflow reader.new) turns.new) opening
        × Puts (W.outflow writer.old) (W.outflow writer.new) (greeting_octets ++ ready_octets ours) 0) }
    ensures turned_away { IfErr result (λ end. Exchange (TurnsAway ours end)
        (devices_at (R.inflow reader.old) turns.old (W.outflow writer.old))
        (devices_at (R.inflow reader.new) turns.new (W.outflow writer.new)) (Some end)) }
{
    put(writer, &greeting())?;
    let opening = read_opening(reader, turns)?;
    if let Err(fault) = read_greeting(&opening) {
        return Err(ConnectionEnd::Wire(fault));
    }
    let Ok(ready) = ready_text(alloc, ours) else {
        return Err(ConnectionEnd::Failed(ConnectionFault::Memory));
    };
    let written = put(writer, &ready);
    drop(ready);
    written
}

/// Reads the peer's greeting, and no octet after it.
fn read_opening<R: Inlet>(reader: &mut R, turns: &mut u64) -> Result<[u8; 64], ConnectionEnd>
    ensures ok { IfOk result (λ opening. (length opening ≡ 64)
        × Leg (source_at (R.inflow reader.old) turns.old) (source_at (R.inflow reader.new) turns.new) opening) }
    ensures err { IfErr result (λ end. IsStop end × ((octets : List ℕ) × (length octets < 64)
        × Reading (source_at (R.inflow reader.old) turns.old) (source_at (R.inflow reader.new) turns.new) octets
        end)) }
{
    let mut opening = [0; 64];
    let mut filled = 0;
    while filled < opening.len() {
        filled += read_turn(reader, &mut opening[filled..], turns)?;
    }
    Ok(opening)
}

/// Reads until the first traffic after the peer's greeting came whole.
fn read_first<R: Inlet>(
    reader: &mut R,
    decoder: &mut Decoder,
    turns: &mut u64,
) -> Result<Fed, ConnectionEnd>
    requires { decoder.old ≡ fresh }
    ensures ok { IfOk result (λ fed. (fed.traffic ≢ []) × ((octets : List ℕ) × IsFed fed decoder.new octets
        × Leg (source_at (R.inflow reader.old) turns.old) (source_at (R.inflow reader.new) turns.new) octets
        × ComesLate (source_at (R.inflow reader.old) turns.old) (source_at (R.inflow reader.new) turns.new)
        octets)) }
    ensures err { IfErr result (λ end. (octets : List ℕ) × BringsNothing octets end
        × Reading (source_at (R.inflow reader.old) turns.old) (source_at (R.inflow reader.new) turns.new) octets
        end) }
{
    let mut piece = [0; FIRST_PIECE];
    loop {
        let count = read_turn(reader, &mut piece, turns)?;
        let fed = decoder.feed(&piece[..count]);
        if !fed.traffic.is_empty() {
            return Ok(fed);
        }
        if let Some(fault) = fed.fault {
            return Err(ConnectionEnd::Wire(fault));
        }
    }
}

/// Judges the first traffic, which is to be READY, and keeps the others.
fn meet(
    alloc: Global,
    fed: Fed,
    decoder: Decoder,
    ours: SocketType,
) -> Result<OpenPeer, ConnectionEnd>
    requires some { fed.traffic ≢ [] }
    requires came { (octets : List ℕ) × IsFed fed decoder octets }
    ensures ok { IfOk result (λ peer. (first : Traffic) × (unheard : Unheard) × (peer.unheard ≡ Some unheard)
        × (fed.traffic ≡ first ∷ unheard.fed.traffic) × (unheard.fed.fault ≡ fed.fault)
        × (unheard.decoder ≡ decoder) × IsReady first ours (Ok (record { peer = peer.socket }))
        × IsIdentity first peer.identity) }
    ensures err { IfErr result (λ end. (first : Traffic) × (others : List Traffic)
        × (fed.traffic ≡ first ∷ others) × IsNotMet ours first end) }
{
    let Fed { traffic, fault } = fed;
    let mut traffic = traffic.into_vec();
    let first = traffic.remove(0);
    let introduced = introduced(alloc, &first, ours);
    drop(first);
    let fed = Fed {
        traffic: Row::new(traffic),
        fault,
    };
    match introduced {
        Ok(Introduction { socket, identity }) => Ok(OpenPeer {
            socket,
            identity,
            unheard: Some(Unheard { fed, decoder }),
        }),
        Err(end) => {
            drop(fed);
            drop(decoder);
            Err(end)
        }
    }
}

/// What the first traffic says of a peer, which is to be READY.
fn introduced(
    alloc: Global,
    first: &Traffic,
    ours: SocketType,
) -> Result<Introduction, ConnectionEnd>
    ensures ok { IfOk result (λ introduction. IsReady first.now ours (Ok (record { peer = introduction.socket }))
        × IsIdentity first.now introduction.identity) }
    ensures err { IfErr result (λ end. IsNotMet ours first.now end) }
{
    let ready = match read_ready(first, ours) {
        Ok(ready) => ready,
        Err(fault) => return Err(ConnectionEnd::Wire(fault)),
    };
    let identity = match read_identity(first) {
        Some(identity) => Vec::from_slice(alloc, identity),
        None => Ok(Vec::new(alloc)),
    };
    match identity {
        Ok(identity) => Ok(Introduction {
            socket: ready.peer,
            identity: Octets::new(identity),
        }),
        Err(_) => Err(ConnectionEnd::Failed(ConnectionFault::Memory)),
    }
}
