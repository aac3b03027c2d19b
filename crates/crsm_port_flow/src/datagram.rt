//! Datagrams that were received and are not handed up yet.

ghost use Rattle.std.specs.Prelude.{◌≡◌, ◌+◌, ◌≤◌, [], length, IfOk, OnErr};
ghost use Rattle.crsm_port_flow.specs.declared.datagram.Loss.TheVariants.{NoMemory as NoMemoryLoss};

use crsm_base::NoMemory;
use crsm_port::Recv;
use crsm_port_faults::raise;
use std::alloc::Global;

/// A received datagram, and the address that it came from.
#[derive(Drop)]
pub(crate) struct Datagram {
    from: u64,
    bytes: Vec<u8>,
}

impl Datagram {
    ghost use Rattle.crsm_port_flow.specs.Kept.{GoesUp, packet_of};
    ghost use Rattle.crsm_port_flow.specs.Rooms.{size_of};

    /// Returns the length of the datagram in bytes.
    pub(crate) fn len(&self) -> usize
        ensures { result ≡ size_of self.now }
    {
        self.bytes.len()
    }

    /// Copies the datagram to the buffer, as far as it has room, and returns it as received.
    pub(crate) fn hand_up(&self, buf: &mut [u8]) -> Recv
        ensures { GoesUp (packet_of self.now) buf.old buf.new result }
    {
        let len = self.bytes.len().min(buf.len());
        buf[..len].copy_from_slice(&self.bytes[..len]);
        Recv::Datagram {
            from: self.from,
            len,
        }
    }
}

/// Why a received datagram goes no further.
#[derive(Clone, Copy, PartialEq)]
pub(crate) enum Loss {
    /// It asks for nothing, there is no room for it, or it is a frame that cannot wait for an earlier one.
    Dropped,
    NoMemory,
}

impl From<NoMemory> for Loss {
    ghost from_gives = { λ _ loss. loss ≡ NoMemoryLoss };

    fn from(_: NoMemory) -> Self {
        Loss::NoMemory
    }
}

/// The number of received datagrams that went no further, by the reason.
#[derive(Drop)]
pub(crate) struct Losses {
    dropped: u64,
    unkept: u64,
}

impl Losses {
    ghost use Rattle.crsm_port_flow.specs.Losses.{CountsLoss};

    /// Returns the numbers before the first datagram.
    pub(crate) fn new() -> Losses
        ensures { (result.dropped ≡ 0) × (result.unkept ≡ 0) }
    {
        Losses {
            dropped: 0,
            unkept: 0,
        }
    }

    /// Counts one more.
    pub(crate) fn count(&mut self, loss: Loss)
        ensures { CountsLoss loss self.old self.new }
    {
        match loss {
            Loss::Dropped => raise(&mut self.dropped),
            Loss::NoMemory => raise(&mut self.unkept),
        }
    }
}

/// Maximum length of a packet in bytes. No frame of a replica is longer than 1,158: its entry has at most 1,129, 20 stand
/// before that, and 9 before the frame for the mark of a cluster.
pub(crate) const PACKET_BYTES: usize = 1_232;

/// Maximum number of datagrams whose memory is kept for others.
const MOST_SPARE: usize = 1_024;

/// Memory for datagrams. That of datagrams that were handed up is used again.
#[derive(Drop)]
pub(crate) struct Buffers {
    alloc: Global,
    spare: Vec<Vec<u8>>,
    ghost few: { length spare.items ≤ 1_024 },
}

impl Buffers {
    ghost use Rattle.crsm_port_flow.specs.Kept.{Is};
    ghost use Rattle.crsm_port_flow.specs.Rooms.{IsShortOf};

    /// Returns memory of which none is spare.
    pub(crate) fn new(alloc: Global) -> Buffers
        ensures { result.spare.items ≡ [] }
    {
        Buffers {
            alloc,
            spare: Vec::new(alloc),
        }
    }

    /// Returns a copy of the bytes as a datagram, in spare memory if there is any. `NoMemory` if memory runs out.
    pub(crate) fn datagram(&mut self, from: u64, bytes: &[u8]) -> Result<Datagram, NoMemory>
        ensures copy { IfOk result (Is from bytes.now) }
        ensures no_memory { OnErr result (IsShortOf (length bytes.now) self.old) }
    {
        let mut copy = self.spare.pop().unwrap_or(Vec::new(self.alloc));
        copy.clear();
        copy.extend_from_slice(bytes)?;
        Ok(Datagram { from, bytes: copy })
    }

    /// Takes the memory of a datagram back, for another one.
    pub(crate) fn take_back(&mut self, datagram: Datagram)
        ensures { length self.new.spare.items ≤ length self.old.spare.items + 1 }
    {
        if datagram.bytes.len() <= PACKET_BYTES && self.spare.len() < MOST_SPARE {
            // Without memory for this it is freed.
            let _ = self.spare.push(datagram.bytes);
        }
    }
}
