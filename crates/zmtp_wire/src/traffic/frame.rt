//! A frame (RFC 23, "Framing").

ghost use Rattle.std.specs.Prelude.{◌≡◌, ◌+◌, false, length, min, true};
ghost use Rattle.zmtp_wire.specs.Frame.{frame_octets};
ghost use Rattle.zmtp_wire.specs.Pending.{size_len};

use listed::Octets;

/// A frame as it was spelled: the same body may stand after a short or a long size.
#[derive(Debug, Drop)]
pub struct Frame {
    /// Whether the size has eight octets.
    pub long: bool,
    /// The octets after the size.
    pub body: Octets,
}

impl Frame {
    /// How many octets it was spelled in, or as many as can be counted.
    pub(crate) fn octets(&self) -> usize
        ensures { result ≡ min (length (frame_octets true false self.now)) usize.MAX }
    {
        head_len(self.long).saturating_add(self.body.as_slice().len())
    }
}

/// How many octets a frame's flags and size have.
pub(crate) fn head_len(long: bool) -> usize
    ensures { result ≡ 1 + size_len long }
{
    if long { 9 } else { 2 }
}
