//! The command READY: writing ours, and judging the peer's.

ghost use Rattle.std.specs.Prelude.{◌≡◌, ◌≢◌, ◌<◌, ◌≤◌, ◌^◌, ◌⊎◌, ◌++◌, ℕ, List, length, codes, IfSome, IfNone, IfOk};
ghost use Rattle.std.specs.Prelude.{◌↔◌, IfErr, IsTrue};
ghost use Rattle.zmtp_wire.specs.Ready.{Property, BeginsWithProperty, AnnouncesIn, HasNoProperties, AnnouncesNoneIn};
ghost use Rattle.zmtp_wire.specs.Ready.{Accepts, AcceptsNone, IsReady, ready_octets, PropertiesHaveOneReading};
ghost use Rattle.zmtp_wire.specs.Ready.{GivesIdentity, GivesNoIdentity, OneIdentity, ReadyHasOneOutcome};
ghost use Rattle.zmtp_wire.specs.Ready.{OurReadyIsRead};
ghost use Rattle.zmtp_wire.specs.Lengths.{short_text, long_text};

use crate::fault::WireFault;
use crate::handshake::socket_type::SocketType;
use crate::traffic::Traffic;
use std::alloc::Global;

/// What a peer's READY says (RFC 23, "The NULL Security Mechanism").
#[derive(Clone, Copy, Debug, PartialEq, Eq)]
pub struct Ready {
    /// The socket type of the peer, which pairs with ours.
    pub peer: SocketType,
}

/// The flags octet of a command whose size stands in one octet.
const SHORT_COMMAND: u8 = 0x04;

/// What stands in our READY before the length of the value: two names after their lengths.
const NAMES: &[u8] = b"\x05READY\x0BSocket-Type";

/// How long the body of our READY is but for the value: the names, and the four octets of the value's length.
const BODY_BEFORE_VALUE: u8 = 22;

/// Our READY as it is sent: a whole command frame, with the property `Socket-Type` alone (RFC 23, "The NULL
/// Security Mechanism").
///
/// # Errors
///
/// `OutOfMemory`, and nothing else.
pub fn ready_text(alloc: Global, socket: SocketType) -> Result<Vec<u8>, WireFault>
    ensures text { IfOk result (λ v. v.items ≡ ready_octets socket) }
    ensures memory { IfErr result (λ e. e ≡ WireFault.OutOfMemory) }
{
    let value = socket.name();
    let len = value.len() as u8;
    let mut text = Vec::with_capacity(alloc, 2 + usize::from(BODY_BEFORE_VALUE + len))?;
    text.extend_from_slice(&[SHORT_COMMAND, BODY_BEFORE_VALUE + len])?;
    text.extend_from_slice(NAMES)?;
    text.extend_from_slice(&u32::from(len).to_be_bytes())?;
    text.extend_from_slice(value)?;
    Ok(text)
}

/// Reads the first that a peer sends after its greeting, which has to be READY (RFC 23, "The NULL Security Mechanism").
/// The whole list of properties is judged; the first `Socket-Type` in it counts. Takes no memory.
///
/// # Errors
///
/// `PeerError` for the command ERROR. `Command` for a message, another command, a list of properties that is
/// broken or one without `Socket-Type`. `Pairing` for a type that is unknown or doesn't pair with ours.
pub fn read_ready(first: &Traffic, ours: SocketType) -> Result<Ready, WireFault>
    ensures { IsReady first.now ours result }
{
    if first.is_error() {
        return Err(WireFault::PeerError);
    }
    match first {
        Traffic::Message(_) => Err(WireFault::Command),
        Traffic::Command(name, rest) => read_command(name.as_slice(), rest.as_slice(), ours),
    }
}

/// Reads a command that isn't ERROR.
fn read_command(name: &[u8], rest: &[u8], ours: SocketType) -> Result<Ready, WireFault>
    requires { name.now ≢ codes "ERROR" }
    ensures { IsReady (Traffic.Command name.now rest.now) ours result }
{
    if !is_ready(name) {
        return Err(WireFault::Command);
    }
    match announced_in(rest, b"Socket-Type") {
        Some(value) => accepted(value, ours),
        None => Err(WireFault::Command),
    }
}

/// Whether a command of this name is READY.
fn is_ready(name: &[u8]) -> bool
    ensures { IsTrue result ↔ name.now ≡ codes "READY" }
{
    name == b"READY".as_slice()
}

/// The peer's type by the value of its `Socket-Type`.
fn accepted(value: &[u8], ours: SocketType) -> Result<Ready, WireFault>
    ensures ok { IfOk result (λ ready. Accepts ours value.now ready.peer) }
    ensures err { IfErr result (λ e. (e ≡ WireFault.Pairing) × AcceptsNone ours value.now) }
{
    match SocketType::from_name(value) {
        Some(peer) if ours.pairs_with(peer) => Ok(Ready { peer }),
        _ => Err(WireFault::Pairing),
    }
}

/// Reads the identity that a peer gives itself in its READY: the value of the first `Identity` in its list of
/// properties (RFC 23, "The NULL Security Mechanism"). It is none if that is empty or isn't there, if the list is
/// broken, and for a message or another command. Takes no memory.
pub fn read_identity(first: &Traffic) -> Option<&[u8]>
    ensures given { IfSome result (λ identity. GivesIdentity first.now identity.now) }
    ensures none { IfNone result (GivesNoIdentity first.now) }
{
    match first {
        Traffic::Message(_) => None,
        Traffic::Command(name, rest) => identity_in(name.as_slice(), rest.as_slice()),
    }
}

/// Reads the identity in a command.
fn identity_in<'a>(name: &[u8], rest: &'a [u8]) -> Option<&'a [u8]>
    ensures given { IfSome result (λ identity. GivesIdentity (Traffic.Command name.now rest.now) identity.now) }
    ensures none { IfNone result (GivesNoIdentity (Traffic.Command name.now rest.now)) }
{
    if !is_ready(name) {
        return None;
    }
    match announced_in(rest, b"Identity") {
        Some(identity) if !identity.is_empty() => Some(identity),
        _ => None,
    }
}

/// The value of the first property of a name in a list of properties, which is read to its end.
fn announced_in<'a>(rest: &'a [u8], sought: &[u8]) -> Option<&'a [u8]>
    ensures found { IfSome result (λ value. AnnouncesIn sought.now rest.now value.now) }
    ensures none { IfNone result (HasNoProperties rest.now ⊎ AnnouncesNoneIn sought.now rest.now) }
{
    let mut found = None;
    let mut left = rest;
    'list: while !left.is_empty() {
        let (name, value, behind) = property_at(left)?;
        if name.eq_ignore_ascii_case(sought) {
            found = found.or(Some(value));
        }
        left = behind;
    }
    found
}

/// The name and the value of the property at the front, and what stands after it.
fn property_at(octets: &[u8]) -> Option<(&[u8], &[u8], &[u8])>
    ensures found { IfSome result (λ x.
        BeginsWithProperty octets.now (record { name = x.0.now; value = x.1.now }) x.2.now) }
    ensures none { IfNone result ((p : Property) (rest : List ℕ) → ¬ (BeginsWithProperty octets.now p rest)) }
{
    let (name, behind) = short_text_at(octets)?;
    let (value, behind) = long_text_at(behind)?;
    Some((name, value, behind))
}

/// The text at the front after its length in one octet, which isn't 0, and what stands after it.
fn short_text_at(octets: &[u8]) -> Option<(&[u8], &[u8])>
    ensures found { IfSome result (λ x. (1 ≤ length x.0.now) × (length x.0.now < 256)
        × (octets.now ≡ short_text x.0.now ++ x.1.now)) }
    ensures none { IfNone result ((text rest : List ℕ) → 1 ≤ length text → octets.now ≢ short_text text ++ rest) }
{
    let (len, behind) = octets.split_first()?;
    let len = usize::from(*len);
    if len == 0 || behind.len() < len {
        return None;
    }
    Some(behind.split_at(len))
}

/// The text at the front after its length in four octets, and what stands after it.
fn long_text_at(octets: &[u8]) -> Option<(&[u8], &[u8])>
    ensures found { IfSome result (λ x. (length x.0.now < 2 ^ 32) × (octets.now ≡ long_text x.0.now ++ x.1.now)) }
    ensures none { IfNone result ((text rest : List ℕ) → length text < 2 ^ 32 → octets.now ≢ long_text text ++ rest) }
{
    let (len, behind) = octets.split_first_chunk::<4>()?;
    let len = u32::from_be_bytes(*len) as usize;
    if behind.len() < len {
        return None;
    }
    Some(behind.split_at(len))
}

/// Octets are those of one list of properties at most (RFC 23, "The NULL Security Mechanism").
pub fn law_properties_have_one_reading()
    ensures { PropertiesHaveOneReading }
{}

/// A peer has one identity at most.
pub fn law_one_identity()
    ensures { OneIdentity }
{}

/// What comes after a greeting has one outcome at most.
pub fn law_ready_has_one_outcome()
    ensures { ReadyHasOneOutcome }
{}

/// A peer that accepts our type is told it by our READY.
pub fn law_our_ready_is_read()
    ensures { OurReadyIsRead }
{}
