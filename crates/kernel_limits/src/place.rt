//! Who gets a place among the connections of a port.

ghost use Rattle.std.specs.Prelude.{◌≡◌};
ghost use Rattle.kernel_limits.specs.Limits.{place_of};

use crate::limits::CONNECTIONS;

/// What becomes of a newcomer.
#[derive(Clone, Copy, Debug, PartialEq, Eq)]
pub enum Place {
    /// There is a place for it.
    Free,
    /// It gets the place of this one, which is closed.
    Of(usize),
    /// It is closed.
    Taken,
}

/// What becomes of a newcomer, while so many connections are there. `shaking` is the oldest of these that hasn't
/// finished its handshake, and `left` the oldest whose peer has closed its side, if there is one.
pub fn place_of(many: usize, shaking: Option<usize>, left: Option<usize>) -> Place
    ensures { result ≡ place_of many shaking left }
{
    if many < CONNECTIONS {
        return Place::Free;
    }
    match shaking {
        Some(oldest) => Place::Of(oldest),
        None => match left {
            Some(oldest) => Place::Of(oldest),
            None => Place::Taken,
        },
    }
}
