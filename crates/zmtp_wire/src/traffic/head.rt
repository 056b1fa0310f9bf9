//! What a frame that is written begins with, its flags and its size (RFC 23, "Framing"); and frames that are as short.

ghost use Rattle.std.specs.Prelude.{◌≡◌, nat_lt, false};
ghost use Rattle.zmtp_wire.specs.Frame.{head_octets};

use crate::traffic::flags::Flags;
use std::marker::Model;

/// How many octets a `Head` has at most: those of a PONG with the longest context.
pub(crate) const LONGEST: usize = 23;

/// The head of a frame: its flags octet and its size, two octets or nine; or a PONG, which is a whole frame. It takes
/// no memory of its own, and a contract sees the list of the octets.
#[derive(Debug, Drop)]
pub struct Head {
    /// The octets, and zeros after them.
    pub(crate) octets: [u8; LONGEST],
    /// How many they are.
    pub(crate) len: usize,
}

impl Model for Head {
    ghost use Rattle.std.specs.Prelude.{ℕ, ◌≤◌, List, take};

    ghost Value = { List ℕ };

    ghost view = { λ head. take head.len head.octets };

    ghost invariant = { λ head. head.len ≤ 23 };
}

impl Head {
    /// The octets, in their order.
    pub fn octets(&self) -> &[u8]
        ensures { result.now ≡ self.now }
    {
        &self.octets[..self.len]
    }
}

/// The head of a frame of a message whose body has `len` octets, with MORE if another frame follows (RFC 23,
/// "Framing"). The size has one octet up to 255 and eight above. Needs no memory.
pub fn frame_head(more: bool, len: usize) -> Head
    ensures { result ≡ head_octets more (nat_lt 255 len) false len }
{
    let long = len > 255;
    let flags = Flags {
        more,
        long,
        command: false,
    };
    let mut octets = [0; LONGEST];
    octets[0] = flags.octet();
    if long {
        octets[1..9].copy_from_slice(&(len as u64).to_be_bytes());
        Head { octets, len: 9 }
    } else {
        octets[1] = len as u8;
        Head { octets, len: 2 }
    }
}
