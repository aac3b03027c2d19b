//! How this node's clock stands beside those of the others, by the times that their frames carry.

use crate::line::Line;
use crsm_text_fields::take_u64;

/// The difference in microseconds from which on something is said: more than packets take.
const MUCH: u64 = 500_000;

/// For so many microseconds packets are gathered.
const PERIOD: u64 = 2_000_000;

/// The least time in microseconds between two lines.
const PAUSE: u64 = 60_000_000;

/// How far the clock was ahead of, and behind, the times in the frames of the last while, at the least.
#[derive(Clone, Copy)]
pub(crate) struct Clocks {
    ahead: u64,
    behind: u64,
    has_frames: bool,
    since: u64,
    /// The greatest reading so far.
    newest: u64,
    said: Option<u64>,
}

/// Parses the bytes behind this many as a time.
fn time_behind(bytes: &[u8], count: usize) -> Option<u64> {
    if bytes.len() < count {
        return None;
    }
    let (time, _) = take_u64(&bytes[count..])?;
    Some(time)
}

/// Returns the time of its sender that a frame carries, or `None` if the bytes are no frame.
fn time_of(bytes: &[u8]) -> Option<u64> {
    match bytes {
        [1, ..] if bytes.len() > 19 => match bytes[19] {
            1 => time_behind(bytes, 28),
            2 => time_behind(bytes, 29),
            3 => time_behind(bytes, 20),
            _ => None,
        },
        _ => None,
    }
}

impl Clocks {
    /// Returns the state at the first reading.
    pub(crate) fn at(reading: u64) -> Clocks {
        Clocks {
            ahead: u64::MAX,
            behind: u64::MAX,
            has_frames: false,
            since: reading,
            newest: reading,
            said: None,
        }
    }

    /// Notes a datagram that was taken.
    pub(crate) fn take(&mut self, bytes: &[u8], reading: u64) {
        if let Some(time) = time_of(bytes) {
            self.ahead = self.ahead.min(reading.saturating_sub(time));
            self.behind = self.behind.min(time.saturating_sub(reading));
            self.has_frames = true;
        }
    }

    /// Returns a line if the clock went back, or if it is far from all others.
    pub(crate) fn say(&mut self, reading: u64) -> Option<Line> {
        let back = self.newest.saturating_sub(reading);
        if back >= MUCH {
            *self = Clocks::at(reading);
            return Some(Line::ClockWentBack { time: back });
        }
        self.newest = self.newest.max(reading);
        if reading.saturating_sub(self.since) < PERIOD {
            return None;
        }
        let line = self.far();
        let said = self.said;
        let newest = self.newest;
        *self = Clocks {
            newest,
            said,
            ..Clocks::at(reading)
        };
        line
    }

    /// Returns a line if the frames say that the clock is far from all others, and none was said of late.
    fn far(&mut self) -> Option<Line> {
        if !self.has_frames || (self.ahead < MUCH && self.behind < MUCH) {
            return None;
        }
        if let Some(said) = self.said
            && self.newest.saturating_sub(said) < PAUSE
        {
            return None;
        }
        self.said = Some(self.newest);
        if self.ahead >= MUCH {
            Some(Line::ClockAhead { time: self.ahead })
        } else {
            Some(Line::ClockBehind { time: self.behind })
        }
    }
}
