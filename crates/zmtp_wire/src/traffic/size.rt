//! The size of a frame: one octet, or eight in network order (RFC 23, "Framing").

ghost use Rattle.std.specs.Prelude.{◌≡◌, ◌-◌, ◌<◌, ◌≤◌, ◌^◌, ◌++◌, [], min, length, take, IfSome, IfNone, true};
ghost use Rattle.zmtp_wire.specs.Frame.{size_bound, size_octets};
ghost use Rattle.zmtp_wire.specs.Pending.{size_len};

use std::marker::Model;

/// The octets of a long size that have come, eight at most. They take no memory of their own.
#[derive(Debug, Drop)]
pub(crate) struct SizeOctets {
    /// The octets that have come, and zeros after them.
    octets: [u8; 8],
    /// How many have come.
    count: usize,
}

impl Model for SizeOctets {
    ghost use Rattle.std.specs.Prelude.{◌≤◌, ℕ, List, take};

    ghost Value = { List ℕ };

    ghost view = { λ size. take size.count size.octets };

    ghost invariant = { λ size. size.count ≤ 8 };
}

impl SizeOctets {
    /// None has come yet.
    pub(crate) fn new() -> SizeOctets
        ensures { result ≡ [] }
    {
        SizeOctets {
            octets: [0; 8],
            count: 0,
        }
    }

    /// How many have come.
    pub(crate) fn count(&self) -> usize
        ensures value { result ≡ length self.now }
        ensures bound { result ≤ 8 }
    {
        self.count
    }

    /// Takes the next octets, up to eight in all, and answers how many.
    pub(crate) fn extend(&mut self, octets: &[u8]) -> usize
        ensures taken { result ≡ min (8 - length self.old) (length octets.now) }
        ensures added { self.new ≡ self.old ++ take result octets.now }
    {
        let taken = (8 - self.count).min(octets.len());
        let end = self.count + taken;
        self.octets[self.count..end].copy_from_slice(&octets[..taken]);
        self.count = end;
        taken
    }

    /// The number that they say, if all have come.
    pub(crate) fn number(&self) -> Option<usize>
        ensures said { IfSome result (λ size. size < 2 ^ 64) }
        ensures value { IfSome result (λ size. size_octets true size ≡ self.now) }
        ensures cut { IfNone result (length self.now < 8) }
    {
        if self.count < 8 {
            return None;
        }
        Some(long_size(&self.octets))
    }
}

/// The size that these octets begin with, if all of it has come.
pub(crate) fn size_behind(long: bool, octets: &[u8]) -> Option<usize>
    ensures said { IfSome result (λ size. size < size_bound long) }
    ensures come { IfSome result (λ _. size_len long ≤ length octets.now) }
    ensures value { IfSome result (λ size. size_octets long size ≡ take (size_len long) octets.now) }
    ensures cut { IfNone result (length octets.now < size_len long) }
{
    if !long {
        return octets.first().map(|size| usize::from(*size));
    }
    if octets.len() < 8 {
        return None;
    }
    Some(long_size(&octets[..8]))
}

/// The number that eight octets say in network order.
fn long_size(octets: &[u8]) -> usize
    requires { length octets.now ≡ 8 }
    ensures said { result < 2 ^ 64 }
    ensures value { size_octets true result ≡ octets.now }
{
    let number = u64::from_be_bytes([
        octets[0], octets[1], octets[2], octets[3], octets[4], octets[5], octets[6], octets[7],
    ]);
    number as usize
}
