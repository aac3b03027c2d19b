//! Lists of messages to be sent.

ghost use Rattle.std.specs.Prelude.{◌≡◌, ◌<◌, ◌-◌, [], ◌∷◌, ◌++◌, None, length, take, IfSome, OnOk, OnErr};
ghost use Rattle.crsm_mpspec.specs.Sends.{others_below, receivers, sends_of, sends_to};

use crate::message::MpMessage;
use crate::multicast::{MpMulticast, MpReceivers};
use crate::send::MpSend;
use crsm_base::NoMemory;
use std::alloc::Global;
use std::collections::VecDeque;
use std::marker::Model;

/// A list of messages to be sent, in order. A message to several replicas is kept once, and a contract sees one message
/// for each receiver.
pub struct MpSends {
    items: VecDeque<MpMulticast>,
}

// Written by hand, it is one call for the crates above, which would prove a derived one again.
impl Drop for MpSends {
    fn drop(self) {
        let MpSends { items: _ } = self;
    }
}

impl Model for MpSends {
    ghost use Rattle.std.specs.Prelude.{List};
    ghost use Rattle.std.specs.List.{flat_map};
    ghost use Rattle.crsm_mpspec.specs.declared.send.MpSend.{MpSend};
    ghost use Rattle.crsm_mpspec.specs.Sends.{sends_of};

    ghost Value = { List MpSend };

    ghost view = { λ l. flat_map sends_of l.items.items };
}

impl MpSends {
    /// Returns the empty list.
    pub fn new(alloc: Global) -> MpSends
        ensures { result ≡ [] }
    {
        MpSends {
            items: VecDeque::new(alloc),
        }
    }

    /// Appends a message to one replica. `NoMemory` if memory runs out; the list is then unchanged.
    pub fn push(&mut self, item: MpSend) -> Result<(), NoMemory>
        ensures ok { OnOk result (self.new ≡ self.old ++ item ∷ []) }
        ensures err { OnErr result (self.new ≡ self.old) }
    {
        let MpSend { to, message } = item;
        self.items.push_back(MpMulticast {
            receivers: MpReceivers::One { to },
            message,
        })?;
        Ok(())
    }

    /// Appends a message to each replica below `n` but `me`. `NoMemory` if memory runs out; the list is then unchanged.
    pub fn push_to_others(&mut self, me: u32, n: u32, message: MpMessage) -> Result<(), NoMemory>
        ensures ok { OnOk result (self.new ≡ self.old ++ sends_to message (others_below me n)) }
        ensures err { OnErr result (self.new ≡ self.old) }
    {
        self.items.push_back(MpMulticast {
            receivers: MpReceivers::Others { me, n },
            message,
        })?;
        Ok(())
    }

    /// Removes and returns the first message that has receivers, with all of them. The memory is kept for others.
    pub fn pop_first(&mut self) -> Option<MpMulticast>
        ensures first { IfSome result (λ m. self.old ≡ sends_of m ++ self.new) }
        ensures some { IfSome result (λ m. 0 < length (receivers m.receivers)) }
        ensures none { result ≡ None → self.old ≡ [] }
        ensures empty { result ≡ None → self.new ≡ [] }
    {
        while let Some(multicast) = self.items.pop_front() {
            if multicast.receivers.len() > 0 {
                return Some(multicast);
            }
        }
        None
    }

    /// Keeps the first `count` messages, and removes the others. Returns how many fewer there were than `count`.
    pub fn truncate(&mut self, count: u64) -> u64
        ensures kept { self.new ≡ take count self.old }
        ensures missing { result ≡ count - length self.old }
    {
        let mut left = count;
        let mut kept = 0;
        while left > 0 && kept < self.items.len() {
            let multicast = &mut self.items[kept];
            left = multicast.receivers.truncate(left);
            kept += 1;
        }
        self.items.truncate(kept);
        left
    }

    /// Removes all messages, and keeps the memory for further ones.
    pub fn clear(&mut self)
        ensures { self.new ≡ [] }
    {
        self.items.clear();
    }
}
