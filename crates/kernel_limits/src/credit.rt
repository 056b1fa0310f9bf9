//! Whether a connection's reader may read on.

ghost use Rattle.std.specs.Prelude.{◌≡◌};
ghost use Rattle.kernel_limits.specs.Limits.{may_read};

use crate::limits::{JOB_OCTETS, JOBS};

/// Whether the reader of a connection may read on. It depends on how many of its jobs are in work, how many of its
/// replies aren't written, and how many octets both have.
pub fn may_read(jobs: usize, octets: usize, replies: usize) -> bool
    ensures { result ≡ may_read jobs octets replies }
{
    octets < JOB_OCTETS && jobs < JOBS && replies < JOBS - jobs
}
