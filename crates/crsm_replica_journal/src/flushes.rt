//! How long flushes take.

ghost use Rattle.std.specs.Prelude.{◌≡◌, ℕ, List, [], ◌∷◌, ◌++◌, length, nat_lt, filter, IfNone, IfSome, OnErr, OnOk, IsPermutation};
ghost use Rattle.std.specs.List.Sorted.{IsNonDecreasing};
ghost use Rattle.crsm_replica_journal.specs.Flushes.{AreFast, Tells, Took, slow_from};

use std::alloc::{AllocError, Global};

/// The time in microseconds above which a flush is slow.
const SLOW: u64 = 2_000;

/// The most slow flushes that are kept. A minute has time for fewer than 30,000.
const MOST: usize = 65_536;

/// How long slow flushes took, in microseconds.
#[derive(Clone, Copy, Debug, PartialEq, Eq)]
pub struct FlushTimes {
    /// The median of all flushes in order, if that was slow.
    pub median: Option<u64>,
    /// The slowest of them.
    pub slowest: u64,
}

/// The flushes since the last line about them: their number, and the times of the slow ones.
#[derive(Drop)]
pub(crate) struct Flushes {
    count: u64,
    slow: Vec<u64>,
}

impl Flushes {
    /// Returns the state without flushes.
    pub(crate) fn new(alloc: Global) -> Flushes
        ensures { Took result [] }
    {
        Flushes {
            count: 0,
            slow: Vec::new(alloc),
        }
    }

    /// Notes a flush that took this time. `AllocError` if there is no room for it; it is left out then.
    pub(crate) fn add(&mut self, time: u64) -> Result<(), AllocError>
        ensures noted { (times : List ℕ) → Took self.old times → OnOk result (Took self.new (times ++ time ∷ [])) }
        ensures left_out { (times : List ℕ) → Took self.old times → OnErr result (Took self.new times) }
    {
        let Some(count) = self.count.checked_add(1) else {
            return Err(AllocError);
        };
        if time > SLOW {
            if self.slow.len() >= MOST {
                return Err(AllocError);
            }
            self.slow.push(time)?;
        }
        self.count = count;
        Ok(())
    }

    /// Returns how long the flushes took, or `None` if none was slow, and forgets them.
    pub(crate) fn take(&mut self) -> Option<FlushTimes>
        ensures told { (times : List ℕ) → Took self.old times → IfSome result (Tells times) }
        ensures fast { (times : List ℕ) → Took self.old times → IfNone result (AreFast times) }
        ensures forgotten { Took self.new [] }
    {
        self.slow.sort_unstable();
        let told = times_of(self.count, &self.slow);
        self.count = 0;
        self.slow.clear();
        told
    }
}

/// Returns the median and the slowest of flushes of this number, of which the slow ones in order took these times.
fn times_of(count: u64, slow: &[u64]) -> Option<FlushTimes>
    ensures told { (times : List ℕ) → count ≡ length times → IsNonDecreasing slow.now → IsPermutation (filter (λ t. nat_lt slow_from t) times) slow.now → IfSome result (Tells times) }
    ensures fast { (times : List ℕ) → IsPermutation (filter (λ t. nat_lt slow_from t) times) slow.now → IfNone result (AreFast times) }
{
    let slowest = *slow.last()?;
    let fast = count.saturating_sub(slow.len() as u64);
    let median = match (count.saturating_sub(1) / 2).checked_sub(fast) {
        Some(place) => slow.get(place as usize).copied(),
        None => None,
    };
    Some(FlushTimes { median, slowest })
}
