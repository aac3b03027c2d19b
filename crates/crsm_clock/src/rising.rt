//! Strictly rising times of a replica, in the unit of its clock: microseconds.

ghost use Rattle.std.specs.Prelude.{◌≡◌, ℕ, ◌<◌, ◌↔◌, List, IsNone, IfSome, IfNone};
ghost use Rattle.std.specs.List.Sorted.{IsStrictlyIncreasing};
ghost use Rattle.crsm_spec.specs.Clock.{issue};
ghost use Rattle.crsm_clock.specs.Issues.{issued_from};

use std::marker::Model;

/// The times that a replica issues in one epoch: each is above the one before, whatever the clock reads. Its model is
/// the latest time issued, 0 before the first.
#[derive(Debug, Drop)]
pub struct Rising {
    last: u64,
}

impl Model for Rising {
    ghost use Rattle.std.specs.Prelude.{ℕ};

    ghost Value = { ℕ };

    ghost view = { λ r. r.last };
}

impl Rising {
    /// Returns the state before any time was issued.
    pub fn new() -> Rising
        ensures { result ≡ 0 }
    {
        Rising { last: 0 }
    }

    /// Returns the latest time issued, 0 before the first.
    pub fn last(&self) -> u64
        ensures { result ≡ self.now }
    {
        self.last
    }

    /// Returns the time that would be issued at this reading: the greater of the reading and the latest time plus 1.
    /// `None` if the latest time is 2^64 - 1.
    pub fn would(&self, reading: u64) -> Option<u64>
        ensures time { result ≡ issue self.now reading }
        ensures above { IfSome result (λ time. self.now < time) }
        ensures spent { IsNone result ↔ (self.now ≡ u64.MAX) }
    {
        let least = self.last.checked_add(1)?;
        Some(reading.max(least))
    }

    /// Issues the time that `would` returns. `None` changes nothing.
    pub fn issue(&mut self, reading: u64) -> Option<u64>
        ensures time { result ≡ issue self.old reading }
        ensures above { IfSome result (λ time. self.old < time) }
        ensures issued { IfSome result (λ time. self.new ≡ time) }
        ensures spent { IsNone result ↔ (self.old ≡ u64.MAX) }
        ensures same { IfNone result (self.new ≡ self.old) }
    {
        let time = self.would(reading)?;
        self.last = time;
        Some(time)
    }
}

/// States that the times issued at any readings strictly rise. It runs no code.
pub fn issues_rise()
    ensures { (last : ℕ) (readings : List ℕ) → IsStrictlyIncreasing (issued_from last readings) }
{}
