//! Receives that answer nothing first, although something may be ready, so that a tick goes before it.

ghost use Rattle.std.specs.Prelude.{◌≡◌, Option, true, false};
ghost use Rattle.crsm_clock.specs.Readings.{Gives, Readings};
ghost use Rattle.crsm_port_flow.specs.Ticks.{IsTickDue, answered, at_tick};

use crate::time::is_recent;
use crsm_clock::Clock;

/// Time in microseconds between two ticks of a node.
const TICK: u64 = 10_000;

/// Whether a flush came after the last receive, and the reading at which a receive last answered nothing, which is a
/// tick.
///
/// A node that sees a datagram's reading `TICK` after its last tick takes one, which ends the group. Behind a flush that
/// took so long, that would be a group of one datagram, with syncs of its own; so the tick goes before it.
#[derive(Drop)]
pub(crate) struct Ticks {
    has_flushed: bool,
    at: u64,
}

impl Ticks {
    /// Returns a state before the first receive.
    pub(crate) fn new() -> Ticks
        ensures { result ≡ record { has_flushed = false; at = 0 } }
    {
        Ticks {
            has_flushed: false,
            at: 0,
        }
    }

    /// Records a flush.
    pub(crate) fn note_flush(&mut self)
        ensures { self.new ≡ record self.old { has_flushed = true } }
    {
        self.has_flushed = true;
    }

    /// Returns the reading of a receive: that of the clock if this is the first after a flush, or the one before.
    pub(crate) fn reading<C: Clock>(&self, clock: &mut C, before: u64) -> u64
        ensures first { self.now.has_flushed ≡ true → (after : Option Readings) × Gives (C.readings clock.old) after result }
        ensures later { self.now.has_flushed ≡ false → result ≡ before }
    {
        if self.has_flushed {
            clock.now()
        } else {
            before
        }
    }

    /// Records a receive at this reading, and returns whether a tick is due and goes first.
    pub(crate) fn goes_first(&mut self, now: u64) -> bool
        ensures due { result ≡ true → IsTickDue now self.old × (self.new ≡ at_tick now) }
        ensures not { result ≡ false → (self.new ≡ answered self.old) × (IsTickDue now self.old → ⊥) }
    {
        let is_due = self.has_flushed && !is_recent(self.at, now, TICK);
        self.has_flushed = false;
        if is_due {
            self.at = now;
        }
        is_due
    }

    /// Records that a receive answers nothing.
    pub(crate) fn note_nothing(&mut self, now: u64)
        ensures { self.new ≡ record self.old { at = now } }
    {
        self.at = now;
    }
}
