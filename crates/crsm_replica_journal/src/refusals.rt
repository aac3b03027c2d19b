//! How many requests were refused.

use crate::line::Line;
use crsm_base::{Datagram, Outcome, Refusal, Send, To};

/// The least time between two lines, in microseconds.
const PERIOD: u64 = 10_000_000;

/// The refusals since the last line about them, and the reading at it in microseconds.
#[derive(Clone, Copy)]
pub(crate) struct Refusals {
    count: u64,
    last: Option<Refusal>,
    since: u64,
}

/// Returns why the reply refuses its command, or `None` if it is no refusal.
fn refusal_in(datagram: &Datagram) -> Option<Refusal> {
    match datagram {
        Datagram::Reply {
            outcome: Outcome::Refused(why),
            ..
        } => Some(*why),
        _ => None,
    }
}

impl Refusals {
    /// Returns the state without refusals.
    pub(crate) fn at(reading: u64) -> Refusals {
        Refusals {
            count: 0,
            last: None,
            since: reading,
        }
    }

    /// Counts the refusals among what a step sends, of which the replies come last.
    pub(crate) fn count(&mut self, sends: &[Send]) {
        for send in sends.iter().rev() {
            if let To::Replica(_) = send.to {
                return;
            }
            if let Some(why) = refusal_in(&send.datagram) {
                self.count = self.count.saturating_add(1);
                self.last = Some(why);
            }
        }
    }

    /// Returns a line if there were refusals, and the last line is long enough ago.
    pub(crate) fn say(&mut self, reading: u64) -> Option<Line> {
        let last = self.last?;
        let time = reading.saturating_sub(self.since);
        if time < PERIOD {
            return None;
        }
        let count = self.count;
        *self = Refusals::at(reading);
        Some(Line::Refused { count, time, last })
    }
}
