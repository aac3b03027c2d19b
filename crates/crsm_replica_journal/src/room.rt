//! How full the log is.

use crate::line::Line;

/// The most bytes that a log can have.
const MOST: u64 = 1 << 32;

/// The parts of it, in percent, at which something is said.
static MARKS: [u64; 5] = [50, 75, 90, 95, 99];

/// The length of the log in bytes, that of the records that are not written yet, and the last mark that was passed.
#[derive(Clone, Copy)]
pub(crate) struct Room {
    pub(crate) bytes: u64,
    pending: u64,
    said: u64,
}

impl Room {
    /// Returns the state of a log of so many bytes, of which nothing was said.
    pub(crate) fn of(bytes: u64) -> Room {
        Room {
            bytes,
            pending: 0,
            said: 0,
        }
    }

    /// Notes the records of a turn, of so many bytes.
    pub(crate) fn add(&mut self, size: u64) {
        self.pending = self.pending.saturating_add(size);
    }

    /// Returns whether records of turns are not written yet.
    pub(crate) fn has_pending(&self) -> bool {
        self.pending > 0
    }

    /// Notes that the records were written as one body, behind five bytes. Returns a line if a mark was passed.
    pub(crate) fn kept(&mut self) -> Option<Line> {
        if self.pending > 0 {
            self.bytes = self.bytes.saturating_add(self.pending).saturating_add(5);
            self.pending = 0;
        }
        let percent = self.bytes / (MOST / 100);
        let mark = MARKS.iter().rev().find(|mark| **mark <= percent)?;
        if *mark <= self.said {
            return None;
        }
        self.said = *mark;
        Some(Line::Room {
            percent: *mark,
            bytes: self.bytes,
        })
    }
}
