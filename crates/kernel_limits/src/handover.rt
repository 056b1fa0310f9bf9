//! Who gets the replies to a peer that connects again.

ghost use Rattle.std.specs.Prelude.{◌≡◌};
ghost use Rattle.kernel_limits.specs.Limits.{is_awaited, takes_over};

use crate::limits::AWAITED_MILLIS;

/// How far the connection is that the replies to an identity are written on.
#[derive(Clone, Copy, Debug, PartialEq, Eq)]
pub enum Holder {
    /// Its peer has left, or nobody had the identity yet.
    Gone,
    /// Its peer has sent nothing that is signed.
    Unsigned,
    /// Its peer has sent a message that is signed.
    Signed,
}

/// Why another connection of the same identity is to have the replies.
#[derive(Clone, Copy, Debug, PartialEq, Eq)]
pub enum Claim {
    /// Its peer has just shaken hands.
    Opens,
    /// Its peer has waited for a while.
    Waits,
    /// Its peer has sent a message that is signed.
    Signs,
}

/// Whether another connection of the same identity gets the replies from now on. The newest one does, but identities
/// are no secret. So a peer that has shown that it holds the key gives way only to one that shows it, too, or once it
/// has left.
pub fn takes_over(holder: Holder, claim: Claim) -> bool
    ensures { result ≡ takes_over holder claim }
{
    match (holder, claim) {
        (Holder::Gone, _) | (_, Claim::Signs) | (Holder::Unsigned, Claim::Opens) => true,
        (Holder::Unsigned, Claim::Waits) => false,
        (Holder::Signed, Claim::Opens | Claim::Waits) => false,
    }
}

/// Whether replies still wait for a peer that left then.
pub fn is_awaited(since: u64, now: u64) -> bool
    ensures { result ≡ is_awaited since now }
{
    now.saturating_sub(since) < AWAITED_MILLIS
}
