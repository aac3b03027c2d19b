//! Who was not heard for a while.

use crate::line::Line;
use crate::replicas::Replicas;

/// The time in microseconds after which a replica counts as silent.
const SILENCE: u64 = 1_000_000;

/// When each replica was last heard, by readings in microseconds, and which of them were said to be silent.
#[derive(Clone, Copy)]
pub(crate) struct Silences {
    heard: [u64; 15],
    silent: Replicas,
}

impl Silences {
    /// Returns the state at the first reading, as if all had just been heard.
    pub(crate) fn at(reading: u64) -> Silences {
        Silences {
            heard: [reading; 15],
            silent: Replicas::none(),
        }
    }

    /// Notes that this replica was heard. Returns a line if it had been silent.
    pub(crate) fn hear(&mut self, k: u32, reading: u64) -> Option<Line> {
        let heard = self.heard.get_mut(k as usize)?;
        let time = reading.saturating_sub(*heard);
        *heard = reading;
        if !self.silent.has(k) {
            return None;
        }
        self.silent = self.silent.without(k);
        Some(Line::Heard { replica: k, time })
    }

    /// Returns a line if this replica has become silent.
    pub(crate) fn miss(&mut self, k: u32, reading: u64) -> Option<Line> {
        let heard = self.heard.get(k as usize)?;
        let time = reading.saturating_sub(*heard);
        if time < SILENCE || self.silent.has(k) {
            return None;
        }
        self.silent = self.silent.with(k);
        Some(Line::Silent { replica: k, time })
    }
}
