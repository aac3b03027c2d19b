//! The links with one other replica.

ghost use Rattle.std.specs.Prelude.{◌≡◌, ◌<◌, ◌≤◌, ◌+◌, ◌∷◌, ◌++◌, [], ℕ, List, length, max, OnOk};
ghost use Rattle.crsm_spec.specs.Types.{InEpoch};
ghost use Rattle.crsm_link.specs.Sent.{OutStands, pushed_count};

use crsm_base::{InEpoch, NoMemory};
use crsm_link::{In, Out};
use std::alloc::Global;

/// This replica's ends of the links to and from another one.
#[derive(Drop)]
pub(crate) struct Link {
    pub(crate) sender: Out,
    pub(crate) receiver: In,
}

impl Link {
    /// Returns the ends of new links.
    pub(crate) fn new(alloc: Global) -> Link
        ensures sent { OutStands result.sender [] 0 }
        ensures next { result.receiver.next ≡ 0 }
    {
        Link {
            sender: Out::new(alloc),
            receiver: In::new(),
        }
    }

    /// Pushes a payload with this time. Times rise from 1 on, so fewer frames were pushed than `time` says; otherwise
    /// nothing changes. `NoMemory` if memory runs out.
    pub(crate) fn push(&mut self, payload: InEpoch, time: u64) -> Result<(), NoMemory>
        ensures sent { OnOk result ((pushed : List InEpoch) (acked : ℕ) → OutStands self.old.sender pushed acked → length pushed < time →
            OutStands self.new.sender (pushed ++ payload ∷ []) acked) }
        ensures receiver { self.new.receiver ≡ self.old.receiver }
    {
        if self.sender.count() < time {
            self.sender.push(payload)?;
        }
        Ok(())
    }

    /// Takes the next frame, which has this time. Times rise from 1 on, so fewer frames were taken than `time` says;
    /// otherwise nothing changes.
    pub(crate) fn take_next(&mut self, time: u64)
        ensures next { self.old.receiver.next < time → self.new.receiver.next ≡ self.old.receiver.next + 1 }
        ensures sender { self.new.sender ≡ self.old.sender }
    {
        let next = self.receiver.next();
        if next < time {
            self.receiver.take(next);
        }
    }

    /// Removes the frames below the number `next`, which are acknowledged.
    pub(crate) fn acked(&mut self, next: u64)
        ensures sent { (pushed : List InEpoch) (acked : ℕ) → OutStands self.old.sender pushed acked → next ≤ length pushed →
            OutStands self.new.sender pushed (max next acked) }
        ensures receiver { self.new.receiver ≡ self.old.receiver }
    {
        self.sender.acked(next);
    }
}
