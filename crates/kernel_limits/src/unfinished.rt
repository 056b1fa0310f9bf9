//! Whether all unfinished messages together are too much.

ghost use Rattle.std.specs.Prelude.{◌≡◌};
ghost use Rattle.kernel_limits.specs.Limits.{is_overfull};

use crate::limits::UNFINISHED_OCTETS;

/// What a connection holds of an unfinished message, beyond what every connection may hold.
#[derive(Clone, Copy, Debug, PartialEq, Eq)]
pub struct Part {
    /// The connection's number.
    pub number: u64,
    /// How many octets it holds.
    pub octets: usize,
}

/// Whether these parts are more together than all unfinished messages may be.
pub fn is_overfull(parts: &[Part]) -> bool
    ensures { result ≡ is_overfull parts.now }
{
    let mut room = UNFINISHED_OCTETS;
    for part in parts {
        match room.checked_sub(part.octets) {
            Some(left) => room = left,
            None => return true,
        }
    }
    false
}
