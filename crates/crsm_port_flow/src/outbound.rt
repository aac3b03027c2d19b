//! Which datagrams are sent, and which were sent a moment ago.

ghost use Rattle.std.specs.Prelude.{◌≡◌, [], All, false, IfOk};
ghost use Rattle.crsm_port.specs.Passing.{OneMore};
ghost use Rattle.crsm_port_flow.specs.Acks.{held_in};
ghost use Rattle.crsm_port_flow.specs.Waits.{HoldsStill, MayWait, Notes, NotesNone};
ghost use Rattle.crsm_port_flow.specs.Windows.{IsBehind, WindowHears, WindowSends, new_window};

use crate::acks::LastAcks;
use crate::heads::{ACK, FRAME, head_in, part_in};
use crate::parts::RecentParts;
use crate::repeats::Repeats;
use crate::window::Window;
use crsm_base::NoMemory;
use std::alloc::Global;

/// What was sent, and the acknowledgements that are held.
#[derive(Drop)]
pub(crate) struct Outbound {
    pub(crate) acks: LastAcks,
    repeats: Repeats,
    parts: RecentParts,
    window: Window,
}

impl Outbound {
    /// Returns a state in which nothing was sent, or `NoMemory` if memory runs out.
    pub(crate) fn new(alloc: Global) -> Result<Outbound, NoMemory>
        ensures acks { IfOk result (λ o. o.acks.acks.items ≡ []) }
        ensures frames { IfOk result (λ o. All (λ f. f.at ≡ 0) o.repeats.last.items) }
        ensures parts { IfOk result (λ o. All (λ p. p.at ≡ 0) o.parts.last.items) }
        ensures window { IfOk result (λ o. o.window ≡ new_window 0) }
    {
        Ok(Outbound {
            acks: LastAcks::new(alloc)?,
            repeats: Repeats::new(alloc)?,
            parts: RecentParts::new(alloc)?,
            window: Window::new(0),
        })
    }

    /// Returns whether a datagram is to be sent now: an acknowledgement is held, and what went out a moment ago does
    /// not go out again.
    pub(crate) fn may_go(&mut self, to: u64, bytes: &[u8], now: u64) -> bool
        ensures held { OneMore to bytes.now (held_in self.old.acks.acks.items) (held_in self.new.acks.acks.items) }
        ensures later { result ≡ false → MayWait to bytes.now now self.old self.new × NotesNone self.old self.new }
        ensures noted { Notes to bytes.now now self.old self.new }
        ensures still { HoldsStill to bytes.now self.old self.new }
        ensures window { WindowSends bytes.now now self.old.window self.new.window }
    {
        if let Some(frame) = head_in(FRAME, bytes) {
            self.window.note_sent(frame, now);
            return self.repeats.may_go(frame, now);
        }
        if let Some(part) = part_in(bytes) {
            return self.parts.may_go(to, part, now);
        }
        match head_in(ACK, bytes) {
            Some(_) => !self.acks.hold(to, bytes),
            None => true,
        }
    }

    /// Records what a received acknowledgement says.
    pub(crate) fn note_received(&mut self, bytes: &[u8], now: u64)
        ensures acks { self.new.acks ≡ self.old.acks }
        ensures noted { NotesNone self.old self.new }
        ensures window { WindowHears bytes.now now self.old.window self.new.window }
    {
        if let Some(ack) = head_in(ACK, bytes) {
            self.repeats.note_expected(ack, now);
            self.window
                .note_expected(ack.from, ack.epoch, ack.number, now);
        }
    }

    /// Returns whether no peer is so far behind that requests have to wait.
    pub(crate) fn admits(&self, now: u64) -> bool
        ensures { result ≡ false → IsBehind now self.now.window }
    {
        !self.window.is_full(now)
    }
}
