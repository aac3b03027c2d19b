//! Frames that this replica has acknowledged, and that come again.

ghost use Rattle.std.specs.Prelude.{◌≡◌, ◌↔◌, All, IfOk, IsTrue, None};
ghost use Rattle.crsm_port_flow.specs.Again.{Acknowledges, IsAcknowledged, NotesWent, WentAgain};

use crate::heads::Head;
use crate::time::is_recent;
use crsm_base::NoMemory;
use std::alloc::Global;

/// Maximum number of replicas.
const REPLICAS: usize = 15;

/// Time in microseconds between two acknowledged frames of a sender that go up. The replica acknowledges each again, in
/// case its acknowledgement was lost; one is enough, and each is an input of the replica.
const PAUSE: u64 = 40_000;

/// What this replica has acknowledged of a sender's frames: those of this epoch before this number.
#[derive(Clone, Copy)]
struct Said {
    epoch: u64,
    next: u64,
}

/// What this replica has acknowledged of each sender, and the reading at which one of those frames went up last.
#[derive(Drop)]
pub(crate) struct Again {
    said: Vec<Said>,
    went_at: Vec<Option<u64>>,
}

impl Again {
    /// Returns a state in which nothing was acknowledged, or `NoMemory` if memory runs out.
    pub(crate) fn new(alloc: Global) -> Result<Again, NoMemory>
        ensures nothing { IfOk result (λ a. All (λ s. s.next ≡ 0) a.said.items) }
        ensures none { IfOk result (λ a. All (λ at. at ≡ None) a.went_at.items) }
    {
        let nothing = Said { epoch: 0, next: 0 };
        Ok(Again {
            said: Vec::from_elem(alloc, nothing, REPLICAS)?,
            went_at: Vec::from_elem(alloc, None, REPLICAS)?,
        })
    }

    /// Returns whether a frame stays back: it is acknowledged, and such a frame of its sender went up a moment ago.
    pub(crate) fn holds_back(&self, frame: Head, now: u64) -> bool
        ensures { IsTrue result ↔ IsAcknowledged frame.from frame.epoch frame.number self.now.said.items × WentAgain frame.from now self.now.went_at.items }
    {
        self.has(frame) && self.went_lately(frame.from, now)
    }

    /// Returns whether an acknowledged frame of a sender went up a moment ago.
    fn went_lately(&self, from: u8, now: u64) -> bool
        ensures { IsTrue result ↔ WentAgain from now self.now.went_at.items }
    {
        match self.went_at.get(usize::from(from)) {
            Some(Some(at)) => is_recent(*at, now, PAUSE),
            _ => false,
        }
    }

    /// Records that a frame goes up, if it is acknowledged.
    pub(crate) fn note_went(&mut self, frame: Head, now: u64)
        ensures { NotesWent frame.from frame.epoch frame.number now self.old self.new }
    {
        if !self.has(frame) {
            return;
        }
        if let Some(went_at) = self.went_at.get_mut(usize::from(frame.from)) {
            *went_at = Some(now);
        }
    }

    /// Returns whether a frame is acknowledged.
    fn has(&self, frame: Head) -> bool
        ensures { IsTrue result ↔ IsAcknowledged frame.from frame.epoch frame.number self.now.said.items }
    {
        match self.said.get(usize::from(frame.from)) {
            Some(said) => said.epoch == frame.epoch && frame.number < said.next,
            None => false,
        }
    }

    /// Records that this replica expects a sender's frame of this number, and so acknowledges those before it.
    pub(crate) fn note_said(&mut self, of: u8, epoch: u64, next: u64)
        ensures said { Acknowledges of epoch next self.old.said.items self.new.said.items }
        ensures went { self.new.went_at ≡ self.old.went_at }
    {
        if let Some(said) = self.said.get_mut(usize::from(of)) {
            *said = Said { epoch, next };
        }
    }
}
