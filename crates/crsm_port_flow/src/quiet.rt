//! Whether a node has anything to do but to tell its time.

ghost use Rattle.std.specs.Prelude.{◌≡◌, ◌↔◌, IsTrue, None, Some, false, true};
ghost use Rattle.crsm_port_flow.specs.Quiets.{IsDue, IsIdle, TellsTime};

use crate::heads::{ACK, FRAME};
use crate::time::is_recent;
use crsm_wire::unmarked;

/// Time in microseconds for which a node is busy after a datagram that does more than tell a time.
const BUSY_FOR: u64 = 50_000;

/// Time in microseconds after a flush from which on a node that is told a peer's time tells its own.
const ANSWERS_AFTER: u64 = 7_000;

/// Index of the first byte of a frame's payload behind the frame's own, and that byte where the payload is a time alone.
const PAYLOAD: usize = 18;

const TIME: u8 = 3;

/// When a datagram last came or went that does more than tell a time or acknowledge one, when the last flush was, and
/// whether a peer was heard since.
#[derive(Drop)]
pub(crate) struct Quiet {
    busy_at: Option<u64>,
    flushed_at: u64,
    has_heard: bool,
}

/// Returns whether the bytes, with or without the mark of a cluster, tell a time or acknowledge frames, and nothing
/// else.
fn tells_time(bytes: &[u8]) -> bool
    ensures { IsTrue result ↔ TellsTime bytes.now }
{
    match unmarked(bytes) {
        [first, fields @ ..] => {
            *first == ACK || *first == FRAME && fields.get(PAYLOAD) == Some(&TIME)
        }
        [] => false,
    }
}

impl Quiet {
    /// Returns a state before the first datagram.
    pub(crate) fn new() -> Quiet
        ensures { result ≡ record { busy_at = None; flushed_at = 0; has_heard = false } }
    {
        Quiet {
            busy_at: None,
            flushed_at: 0,
            has_heard: false,
        }
    }

    /// Records a datagram that comes or goes.
    pub(crate) fn note(&mut self, bytes: &[u8], now: u64)
        ensures time { TellsTime bytes.now → self.new ≡ self.old }
        ensures more { (TellsTime bytes.now → ⊥) → self.new ≡ record self.old { busy_at = Some now } }
    {
        if !tells_time(bytes) {
            self.busy_at = Some(now);
        }
    }

    /// Records that a datagram came from a peer.
    pub(crate) fn note_heard(&mut self)
        ensures { self.new ≡ record self.old { has_heard = true } }
    {
        self.has_heard = true;
    }

    /// Records a flush.
    pub(crate) fn note_flush(&mut self, now: u64)
        ensures { self.new ≡ record self.old { flushed_at = now; has_heard = false } }
    {
        self.flushed_at = now;
        self.has_heard = false;
    }

    /// Returns whether a peer was heard, and the last flush is long ago.
    pub(crate) fn is_due(&self, now: u64) -> bool
        ensures { IsTrue result ↔ IsDue now self.now }
    {
        self.has_heard && !is_recent(self.flushed_at, now, ANSWERS_AFTER)
    }

    /// Returns whether no such datagram came or went for a while.
    pub(crate) fn is_idle(&self, now: u64) -> bool
        ensures { IsTrue result ↔ IsIdle now self.now }
    {
        !self.busy_at.is_some_and(|at| is_recent(at, now, BUSY_FOR))
    }
}
