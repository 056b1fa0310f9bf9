//! The greeting: writing ours, and judging the peer's.

ghost use Rattle.std.specs.Prelude.{◌≡◌, IfOk, IfErr};
ghost use Rattle.zmtp_wire.specs.Greeting.{greeting_octets, IsGreeting, IsRefusedGreeting, peer_of};

use crate::fault::WireFault;

/// What a greeting tells of a peer: its version of ZMTP (RFC 37, rule `greeting`).
#[derive(Clone, Copy, Debug, PartialEq, Eq)]
pub struct Peer {
    /// The major version, 3 at least.
    pub major: u8,
    /// The minor version, which is free.
    pub minor: u8,
}

/// The first octet of the signature.
const SIGNATURE_OPENS: u8 = 0xFF;

/// The last octet of the signature, after eight of padding.
const SIGNATURE_CLOSES: u8 = 0x7F;

/// The major version that we speak, and the least that we accept.
const MAJOR: u8 = 3;

/// The minor version that we speak.
const MINOR: u8 = 1;

/// The name of the mechanism, padded with zeros.
const NULL_MECHANISM: [u8; 20] = *b"NULL\0\0\0\0\0\0\0\0\0\0\0\0\0\0\0\0";

/// The greeting that the kernel sends: ZMTP 3.1 with the mechanism NULL (RFC 37, rule `greeting`).
pub fn greeting() -> [u8; 64]
    ensures { result ≡ greeting_octets }
{
    let mut octets = [0; 64];
    octets[0] = SIGNATURE_OPENS;
    octets[9] = SIGNATURE_CLOSES;
    octets[10] = MAJOR;
    octets[11] = MINOR;
    octets[12..32].copy_from_slice(&NULL_MECHANISM);
    octets
}

/// Judges a peer's greeting: its signature, then its version, then its mechanism (RFC 37, rule `greeting`).
/// Padding, minor version, as-server and filler are free. Takes no memory.
///
/// # Errors
///
/// `Signature`, `Version` or `Mechanism`: the first that isn't as it should be.
pub fn read_greeting(octets: &[u8; 64]) -> Result<Peer, WireFault>
    ensures accepted { IfOk result (λ peer. IsGreeting octets.now × (peer ≡ peer_of octets.now)) }
    ensures refused { IfErr result (IsRefusedGreeting octets.now) }
{
    if octets[0] != SIGNATURE_OPENS || octets[9] != SIGNATURE_CLOSES {
        return Err(WireFault::Signature);
    }
    let (major, minor) = (octets[10], octets[11]);
    if major < MAJOR {
        return Err(WireFault::Version);
    }
    if octets[12..32] != NULL_MECHANISM[..] {
        return Err(WireFault::Mechanism);
    }
    Ok(Peer { major, minor })
}

/// The greeting that the kernel sends is one that it would accept.
pub fn law_our_greeting_is_accepted()
    ensures { IsGreeting greeting_octets }
{}
