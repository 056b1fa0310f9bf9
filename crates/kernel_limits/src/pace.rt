//! Whether a subscriber keeps the least pace, and for how long that is looked at.

ghost use Rattle.std.specs.Prelude.{◌≡◌};
ghost use Rattle.kernel_limits.specs.Limits.{grace_of, is_slow, pace_after, wasted_by, wasting};

use crate::limits::{LEAST_PACE_MILLIS, PACE_MILLIS, PACE_OCTETS, STEADY_MILLIS, WASTE_MILLIS};

/// What a subscriber took since some time.
#[derive(Clone, Copy, Debug, PartialEq, Eq)]
pub struct Pace {
    /// When something was kept for it first, in milliseconds.
    pub begun: u64,
    /// Since when, in milliseconds.
    pub since: u64,
    /// How many octets; fewer than those of the least pace.
    pub taken: u64,
}

impl Pace {
    /// The pace of a subscriber for which something is kept from now on.
    pub fn begin(now: u64) -> Pace
        ensures { result ≡ record { begun = now; since = now; taken = 0 } }
    {
        Pace {
            begun: now,
            since: now,
            taken: 0,
        }
    }

    /// Counts octets that the subscriber took. As many as those of the least pace begin it anew.
    pub fn take(&mut self, count: u64, now: u64)
        ensures { self.new ≡ pace_after self.old count now }
    {
        let taken = self.taken.saturating_add(count);
        *self = if taken < PACE_OCTETS {
            Pace {
                begun: self.begun,
                since: self.since,
                taken,
            }
        } else {
            Pace {
                begun: self.begun,
                ..Pace::begin(now)
            }
        };
    }

    /// Whether the subscriber didn't take `PACE_OCTETS` in its time. That is `PACE_MILLIS` if it has kept the pace for
    /// more than a moment, and else `grace`. What it took at once may lie in buffers, and shows nothing.
    pub fn is_slow(&self, grace: u64, now: u64) -> bool
        ensures { result ≡ is_slow self.now grace now }
    {
        let is_steady = self.since.saturating_sub(self.begun) >= STEADY_MILLIS;
        let most = if is_steady { PACE_MILLIS } else { grace };
        now.saturating_sub(self.since) >= most
    }
}

/// How long it was waited for subscribers that were given up then.
#[derive(Clone, Copy, Debug, PartialEq, Eq)]
pub struct Waste {
    /// For how many milliseconds, as long as they count.
    pub millis: u64,
    /// When that ended last.
    pub last: u64,
}

impl Waste {
    /// Nobody was given up.
    pub fn new() -> Waste
        ensures { result ≡ record { millis = 0; last = 0 } }
    {
        Waste { millis: 0, last: 0 }
    }

    /// Counts that it was waited for so many milliseconds for one that is given up now.
    pub fn add(&mut self, millis: u64, now: u64)
        ensures { self.new ≡ wasting self.old millis now }
    {
        *self = Waste {
            millis: self.wasted(now).saturating_add(millis),
            last: now,
        };
    }

    /// How many milliseconds count.
    fn wasted(&self, now: u64) -> u64
        ensures { result ≡ wasted_by self.now now }
    {
        if now.saturating_sub(self.last) < WASTE_MILLIS {
            self.millis
        } else {
            0
        }
    }

    /// In how many milliseconds a subscriber has to take the octets of the least pace that didn't keep it before.
    pub fn grace(&self, now: u64) -> u64
        ensures { result ≡ grace_of self.now now }
    {
        PACE_MILLIS
            .saturating_sub(self.wasted(now))
            .max(LEAST_PACE_MILLIS)
    }
}
