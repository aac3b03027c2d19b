//! Room for a number of datagrams, and of bytes.

ghost use Rattle.std.specs.Prelude.{◌≡◌, ◌+◌, ◌-◌, ◌<◌, ◌≤◌, length, true, false, IfOk, OnOk, OnErr, IsErrOf};
ghost use Rattle.crsm_port_flow.specs.Kept.{Is};
ghost use Rattle.crsm_port_flow.specs.Rooms.{HasAsMany, HasOneMore, IsFull, size_of};

use crate::datagram::{Buffers, Datagram, Loss};
use std::alloc::Global;

/// Maximum number of datagrams that are kept, and of their bytes together.
#[derive(Clone, Copy)]
pub(crate) struct Limits {
    pub(crate) datagrams: usize,
    pub(crate) bytes: usize,
}

/// Counts the datagrams that are kept, and their bytes.
#[derive(Drop)]
pub(crate) struct Room {
    count: usize,
    size: usize,
    buffers: Buffers,
}

impl Room {
    /// Returns a room without datagrams.
    pub(crate) fn new(alloc: Global) -> Room
        ensures { (result.count ≡ 0) × (result.size ≡ 0) }
    {
        Room {
            count: 0,
            size: 0,
            buffers: Buffers::new(alloc),
        }
    }

    /// Returns a datagram that is kept here until it is taken back. `Dropped` if there is no room; `NoMemory` if memory
    /// runs out.
    pub(crate) fn put(&mut self, limits: Limits, from: u64, bytes: &[u8]) -> Result<Datagram, Loss>
        ensures kept { IfOk result (Is from bytes.now) }
        ensures full { IsErrOf result Loss.Dropped → IsFull limits.datagrams limits.bytes (length bytes.now) self.old }
        ensures one_more { OnOk result (HasOneMore (length bytes.now) self.old self.new × (self.new.count ≤ limits.datagrams)) }
        ensures same { OnErr result (HasAsMany self.old self.new) }
    {
        let len = bytes.len();
        if !self.has_room(limits, len) {
            return Err(Loss::Dropped);
        }
        let datagram = self.buffers.datagram(from, bytes)?;
        self.count += 1;
        self.size += len;
        Ok(datagram)
    }

    /// Returns whether there is room for one more datagram of this length in bytes.
    fn has_room(&self, limits: Limits, len: usize) -> bool
        ensures room { result ≡ true → (self.now.count < limits.datagrams) × (self.now.size + len ≤ limits.bytes) }
        ensures full { result ≡ false → IsFull limits.datagrams limits.bytes len self.now }
    {
        self.count < limits.datagrams
            && self.size <= limits.bytes
            && len <= limits.bytes - self.size
    }

    /// Takes a datagram back, so that there is room for another.
    pub(crate) fn take_back(&mut self, datagram: Datagram)
        ensures { (self.new.count ≡ self.old.count - 1) × (self.new.size ≡ self.old.size - size_of datagram) }
    {
        self.count = self.count.saturating_sub(1);
        self.size = self.size.saturating_sub(datagram.len());
        self.buffers.take_back(datagram);
    }
}
