//! What connections of every port have in common as they hear a peer.

ghost use Rattle.std.specs.Prelude.{◌≡◌};
ghost use Rattle.kernel_sockets.specs.Hearing.{is_named_well};

use crate::reader::Reader;
use kernel_limits::limits::{IDENTITY_OCTETS, READS};
use std::alloc::Global;
use std::sync::Wait;
use std::time::Clock;
use zmtp_connection::{Intake, OpenPeer, hear};
use zmtp_wire::Counted;

/// Hears a peer with whom hands were shaken, until its octets end or are refused, or the intake gives it up. A peer
/// whose identity is too long isn't heard.
pub fn hear_out<R, T>(
    alloc: Global,
    reader: &mut Counted<Reader<R>>,
    mut peer: OpenPeer,
    intake: &mut T,
)
where
    R: Wait + Clock + Drop,
    T: Intake,
{
    if is_named_well(&peer) {
        drop(hear(alloc, reader, &mut peer, intake, READS));
    }
    drop(peer);
}

/// Whether a peer's identity isn't too long.
pub fn is_named_well(peer: &OpenPeer) -> bool
    ensures { result ≡ is_named_well peer.now.identity }
{
    peer.identity().len() <= IDENTITY_OCTETS
}
