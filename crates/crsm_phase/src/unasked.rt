//! The rule by which a replica sends its time unasked.

ghost use Rattle.std.specs.Prelude.{◌+◌, ◌<◌, ◌≤◌, ◌↔◌, IsTrue};
ghost use Rattle.crsm_base.specs.Limits.{idle_after};

use crsm_base::IDLE_UNITS;
use crsm_clock::Rising;

/// Returns whether a replica sends its time at this reading: the reading is at least `IDLE_UNITS` above the time issued
/// last. After time 2^64 - 1 it never is. A library call: a replica also asks that no link is congested (`crsm_core`,
/// idle).
pub fn idle(clock: &Rising, reading: u64) -> bool
    ensures { IsTrue result ↔ ((clock.now < u64.MAX) × (clock.now + idle_after ≤ reading)) }
{
    let last = clock.last();
    reading >= last && reading - last >= IDLE_UNITS
}
