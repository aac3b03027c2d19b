//! The clock of a step.

ghost use Rattle.std.specs.Prelude.{Some, []};

use crsm_clock::Clock;

/// A clock that always returns the same reading.
#[derive(Drop)]
pub(crate) struct FixedClock {
    /// The reading in microseconds.
    pub(crate) reading: u64,
}

impl Clock for FixedClock {
    ghost readings = { λ clock. Some (record { latest = clock.reading; ahead = [] }) };

    fn now(&mut self) -> u64 {
        self.reading
    }
}
