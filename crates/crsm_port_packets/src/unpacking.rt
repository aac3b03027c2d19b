//! The datagrams of a received packet that have not been handed up.

ghost use Rattle.std.specs.Prelude.{◌≡◌, [], None, IfSome, OnOk, drop, length};
ghost use Rattle.crsm_port.specs.Meaning.{IsWithin};
ghost use Rattle.crsm_port.specs.Passing.{Cut, IsOf, NoMore, Only};
ghost use Rattle.crsm_port_packets.specs.Format.{StandsIn};
ghost use Rattle.crsm_port_packets.specs.Receiving.{Begins, GoesUp, IsDatagram, NoneLeft, TakesNext};
ghost use Rattle.crsm_port_packets.specs.Waiting.{waiting_in};

use crate::format::{LENGTH_BYTES, first_entry};
use crsm_base::NoMemory;
use crsm_port::Recv;
use std::alloc::Global;

/// The entries of a bundle from the next datagram on, and the address that the bundle came from.
#[derive(Drop)]
pub(crate) struct Unpacking {
    from: u64,
    entries: Vec<u8>,
    next: usize,
}

impl Unpacking {
    /// Returns a bundle without datagrams.
    pub(crate) fn new(alloc: Global) -> Unpacking
        ensures { (result.next ≡ 0) × (result.entries.items ≡ []) }
    {
        Unpacking {
            from: 0,
            entries: Vec::new(alloc),
            next: 0,
        }
    }

    /// Takes the entries of a bundle in place of the last one. `NoMemory` if memory runs out; the bundle is then lost.
    pub(crate) fn begin(&mut self, from: u64, entries: &[u8]) -> Result<(), NoMemory>
        ensures only { NoMore (λ address d. (address ≡ from) × StandsIn d entries.now) (waiting_in self.new) }
        ensures begins { OnOk result (Begins from entries.now self.new) }
    {
        self.entries.clear();
        self.next = 0;
        self.from = from;
        self.entries.extend_from_slice(entries)?;
        Ok(())
    }

    /// Returns the next datagram, cut to the buffer, or `None` if there is no further one.
    pub(crate) fn take(&mut self, buf: &mut [u8]) -> Option<Recv>
        ensures within { IfSome result (IsWithin (length buf.old)) }
        ensures waited { IfSome result (IsOf (Cut (waiting_in self.old)) buf.new) }
        ensures some { IfSome result IsDatagram }
        ensures next { IfSome result (TakesNext self.old self.new (length buf.old) buf.new) }
        ensures none { result ≡ None → NoneLeft self.old × (self.new ≡ self.old) }
        ensures rest { NoMore (waiting_in self.old) (waiting_in self.new) }
    {
        let rest = rest_of(self.entries.as_slice(), self.next)?;
        let (bytes, _) = first_entry(rest)?;
        self.next += LENGTH_BYTES + bytes.len();
        Some(hand_up(self.from, bytes, buf))
    }
}

/// Returns the entries of a bundle from an index on.
fn rest_of(entries: &[u8], next: usize) -> Option<&[u8]>
    ensures some { IfSome result (λ rest. rest.now ≡ drop next entries.now) }
    ensures none { result ≡ None → drop next entries.now ≡ [] }
{
    entries.get(next..)
}

/// Copies a datagram to the buffer, as far as it has room, and returns it as received.
pub(crate) fn hand_up(from: u64, bytes: &[u8], buf: &mut [u8]) -> Recv
    ensures within { IsWithin (length buf.old) result }
    ensures some { IsDatagram result }
    ensures goes { GoesUp from bytes.now (length buf.old) buf.new result }
    ensures cut { IsOf (Cut (Only from bytes.now)) buf.new result }
{
    let len = bytes.len().min(buf.len());
    buf[..len].copy_from_slice(&bytes[..len]);
    Recv::Datagram { from, len }
}
