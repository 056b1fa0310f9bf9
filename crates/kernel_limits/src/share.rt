//! How much is kept for a subscriber.

ghost use Rattle.std.specs.Prelude.{◌≡◌, ◌-◌};
ghost use Rattle.kernel_limits.specs.Limits.{most_of, share_of, share_excess};

use crate::limits::{OVERSHOOT_OCTETS, SHARE_OCTETS, SHARES_OCTETS, SMALL_SHARE_OCTETS};

/// How many octets are kept for one subscriber before anybody waits for it. It depends on how many are kept for it, and
/// on how many are kept for all beyond what each has in any case.
pub fn share_of(kept: usize, beyond: usize) -> usize
    ensures { result ≡ share_of kept beyond }
{
    let free = SHARES_OCTETS.saturating_sub(beyond);
    SHARE_OCTETS.min(kept.max(SMALL_SHARE_OCTETS).saturating_add(free))
}

/// How many octets are kept for one subscriber, at most, once a message is being written that began
/// while its share wasn't full. It depends on the same as a share.
pub fn most_of(kept: usize, beyond: usize) -> usize
    ensures { result ≡ most_of kept beyond }
{
    let free = (SHARES_OCTETS + OVERSHOOT_OCTETS).saturating_sub(beyond);
    let most = SHARE_OCTETS + OVERSHOOT_OCTETS;
    most.min(SMALL_SHARE_OCTETS.max(kept).saturating_add(free))
}

/// How much of what is kept for a subscriber is beyond what is kept for each in any case.
pub fn share_excess(kept: usize) -> usize
    ensures { result ≡ share_excess kept }
{
    kept.saturating_sub(SMALL_SHARE_OCTETS)
}
