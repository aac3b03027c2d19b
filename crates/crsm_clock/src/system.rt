//! The clock of the system.

ghost use Rattle.std.specs.Prelude.{None};

use crate::clock::Clock;
use std::io;
use std::time::{self, SystemTime, UNIX_EPOCH};

/// The system's clock, in microseconds since 1970. If it cannot be read, the last reading is returned again, 0 at
/// first. Contracts say nothing of its readings.
#[derive(Drop)]
pub struct SystemClock<'a, R> {
    runtime: &'a R,
    latest: u64,
}

impl<'a, R: time::Clock> SystemClock<'a, R> {
    /// Returns a clock of this runtime, with a last reading of 0.
    pub fn new(runtime: &'a R) -> SystemClock<'a, R> {
        SystemClock { runtime, latest: 0 }
    }
}

impl<R: time::Clock> Clock for SystemClock<'_, R> {
    ghost readings = { λ _. None };

    fn now(&mut self) -> u64 {
        if let Some(reading) = microseconds(self.runtime) {
            self.latest = reading;
        }
        self.latest
    }
}

/// Returns the microseconds since 1970, or `None` if the clock cannot be read or they are 2^64 or above.
fn microseconds<R: time::Clock>(runtime: &R) -> Option<u64> {
    let now = SystemTime::now(runtime).ok()?;
    let since = now.duration_since(UNIX_EPOCH).ok()?;
    u64::try_from(since.as_micros()).ok()
}
