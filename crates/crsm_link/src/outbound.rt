//! The sender's end of a link.

ghost use Rattle.std.specs.Prelude.{◌≡◌, ℕ, ◌+◌, ◌^◌, ◌<◌, ◌≤◌, [], ◌∷◌, ◌++◌, List, length, take, drop, max, IfOk, OnOk, OnErr, All};
ghost use Rattle.std.specs.VecDeque.{deque_len};
ghost use Rattle.crsm_base.specs.declared.InEpoch.{InEpoch};

use crate::frames::Frames;
use crsm_base::{InEpoch, MAX_SENT_AGAIN, NoMemory};
use std::alloc::Global;
use std::collections::VecDeque;

/// The sender's end: the frames that were pushed and are not acknowledged, numbered from 0.
#[derive(Drop)]
pub struct Out {
    alloc: Global,
    /// The number of the first unacknowledged frame.
    first: u64,
    frames: VecDeque<InEpoch>,
    ghost counted: { first + deque_len frames < 2 ^ 64 },
}

impl Out {
    ghost use Rattle.crsm_link.specs.Sent.{OutStands, unacked, pushed_count, WhereStands};

    /// Returns the end of a new link.
    pub fn new(alloc: Global) -> Out
        ensures fresh { OutStands result [] 0 }
    {
        Out {
            alloc,
            first: 0,
            frames: VecDeque::new(alloc),
        }
    }

    /// Appends a frame and returns its number, which is the number of frames pushed before. `NoMemory` if memory runs
    /// out; nothing has changed then.
    pub fn push(&mut self, payload: InEpoch) -> Result<u64, NoMemory>
        requires { pushed_count self.old < u64.MAX }
        ensures ok { OnOk result (WhereStands self.old (λ pushed acked. OutStands self.new (pushed ++ payload ∷ []) acked)) }
        ensures number { IfOk result (λ number. WhereStands self.old (λ pushed acked. number ≡ length pushed)) }
        ensures count { OnOk result (pushed_count self.new ≡ pushed_count self.old + 1) }
        ensures err { OnErr result (WhereStands self.old (λ pushed acked. OutStands self.new pushed acked)) }
    {
        let number = self.first + self.frames.len() as u64;
        self.frames.push_back(payload)?;
        Ok(number)
    }

    /// Removes all frames below this number, which are acknowledged. A number above the frames pushed changes nothing.
    pub fn acked(&mut self, next: u64)
        ensures within { WhereStands self.old (λ pushed acked. next ≤ length pushed → OutStands self.new pushed (max next acked)) }
        ensures past { WhereStands self.old (λ pushed acked. length pushed < next → OutStands self.new pushed acked) }
    {
        let count = next.saturating_sub(self.first);
        if count > self.frames.len() as u64 {
            return;
        }
        drop_front(&mut self.frames, count);
        self.first += count;
    }

    /// Returns the first 64 unacknowledged frames with their numbers. `NoMemory` if memory runs out.
    pub fn due(&self) -> Result<Frames, NoMemory>
        ensures { IfOk result (λ frames. WhereStands self.now (λ pushed acked. frames ≡ take 64 (unacked pushed acked))) }
    {
        let count = self.frames.len().min(MAX_SENT_AGAIN as usize);
        let mut due = Frames::new(self.alloc);
        due.reserve(count)?;
        for index in 0..count {
            let payload = self.frames[index].copy(self.alloc)?;
            due.push((self.first + index as u64, payload))?;
        }
        Ok(due)
    }

    /// Returns the number of frames pushed.
    pub fn count(&self) -> u64
        ensures pushed { WhereStands self.now (λ pushed acked. result ≡ length pushed) }
        ensures value { result ≡ pushed_count self.now }
    {
        self.first + self.frames.len() as u64
    }

    /// Returns the number of unacknowledged frames.
    pub fn len(&self) -> u64
        ensures { WhereStands self.now (λ pushed acked. result ≡ length (unacked pushed acked)) }
    {
        self.frames.len() as u64
    }
}

/// Removes the first `count` frames.
fn drop_front(frames: &mut VecDeque<InEpoch>, count: u64)
    requires { count ≤ deque_len frames.old }
    ensures items { frames.new.items ≡ drop count frames.old.items }
    ensures len { deque_len frames.new + count ≡ deque_len frames.old }
{
    for _place in 0..count {
        frames.pop_front();
    }
}
