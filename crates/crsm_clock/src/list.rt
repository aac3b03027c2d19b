//! A clock with given readings, for simulations and tests.

ghost use Rattle.std.specs.Prelude.{◌≡◌, ◌∷◌, [], ◌++◌, IfOk, OnOk, OnErr, Some};
ghost use Rattle.crsm_clock.specs.Readings.{Gives, next_reading, after_next};

use crate::clock::Clock;
use crsm_base::NoMemory;
use std::alloc::Global;
use std::collections::VecDeque;
use std::marker::Model;

/// A clock that returns the readings of a list, and then the last one again: 0 if there was none.
#[derive(Drop)]
pub struct ListClock {
    ahead: VecDeque<u64>,
    latest: u64,
}

impl Model for ListClock {
    ghost use Rattle.crsm_clock.specs.Readings.{Readings};

    ghost Value = { Readings };

    ghost view = { λ c. record { latest = c.latest; ahead = c.ahead.items } };
}

impl ListClock {
    /// Returns a clock with these readings, or `NoMemory` if memory runs out.
    pub fn new(alloc: Global, readings: &[u64]) -> Result<ListClock, NoMemory>
        ensures { IfOk result (λ clock. (clock.latest ≡ 0) × (clock.ahead ≡ readings.now)) }
    {
        let mut ahead = VecDeque::new(alloc);
        for reading in readings {
            ahead.push_back(*reading)?;
        }
        Ok(ListClock { ahead, latest: 0 })
    }

    /// Appends a reading to those still to come. `NoMemory` if memory runs out; the clock is then unchanged.
    pub fn feed(&mut self, reading: u64) -> Result<(), NoMemory>
        ensures ok { OnOk result (self.new ≡ record self.old { ahead = self.old.ahead ++ reading ∷ [] }) }
        ensures err { OnErr result (self.new ≡ self.old) }
    {
        self.ahead.push_back(reading)?;
        Ok(())
    }
}

impl Clock for ListClock {
    ghost readings = { λ clock. Some clock };

    fn now(&mut self) -> u64
        ensures told { Gives (Some self.old) (Some self.new) result }
        ensures reading { result ≡ next_reading self.old }
        ensures rest { self.new ≡ after_next self.old }
    {
        if let Some(reading) = self.ahead.pop_front() {
            self.latest = reading;
        }
        self.latest
    }
}
