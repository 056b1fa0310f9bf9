//! How long it is waited once a kernel is to end.

ghost use Rattle.std.specs.Prelude.{◌≡◌};
ghost use Rattle.kernel_limits.specs.Limits.{left_of_span, waits_on};

use crate::limits::END_WAIT_MILLIS;

/// How many milliseconds are left of so many that began then.
pub fn grace_left(began: u64, millis: u64, now: u64) -> u64
    ensures { result ≡ left_of_span began millis now }
{
    began.saturating_add(millis).saturating_sub(now)
}

/// Whether the relay still waits for a slow subscriber: as long as the kernel isn't to end, and a moment longer.
pub fn waits_on(ending_since: Option<u64>, now: u64) -> bool
    ensures { result ≡ waits_on ending_since now }
{
    match ending_since {
        Some(since) => now.saturating_sub(since) < END_WAIT_MILLIS,
        None => true,
    }
}
