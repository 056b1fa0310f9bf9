//! Octets that are kept for a subscriber, and are taken at once.

ghost use Rattle.std.specs.Prelude.{◌≡◌};
ghost use Rattle.kernel_limits.specs.Kept.{chunk_octets};

use arrayvec::ArrayVec;

/// How many octets are kept without memory, at most.
pub(crate) const SHORT: usize = 256;

/// A chunk of what was kept for a subscriber.
#[derive(Debug, Drop)]
pub enum Chunk {
    /// One that was kept without memory.
    Short(ArrayVec<u8, SHORT>),
    /// One that was kept in memory.
    Long(Vec<u8>),
}

impl Chunk {
    /// Its octets.
    pub fn as_slice(&self) -> &[u8]
        ensures { result.now ≡ chunk_octets self.now }
    {
        match self {
            Chunk::Short(octets) => octets.as_slice(),
            Chunk::Long(octets) => octets.as_slice(),
        }
    }
}
