//! Lists of sent datagrams.

ghost use Rattle.std.specs.Prelude.{◌≡◌, ◌+◌, ◌<◌, ◌≤◌, ◌↔◌, [], ◌∷◌, ◌++◌, length, IsNone, IsTrue, IfSome, OnOk, OnErr, Some, take, drop, slice_get, vec_len, vec_capacity};
ghost use Rattle.crsm_port.specs.Packets.{is_within, packets};

use crsm_base::NoMemory;
use std::alloc::Global;

// The address of a datagram, and the range of the buffer that holds its bytes.
#[derive(Clone, Copy)]
pub(crate) struct Label {
    pub(crate) address: u64,
    pub(crate) start: usize,
    pub(crate) len: usize,
}

/// A list of sent datagrams with their addresses (IPv4 x 65,536 + port), the oldest first. All bytes are in one buffer.
#[derive(Drop)]
pub struct SentPackets {
    pub(crate) labels: Vec<Label>,
    pub(crate) bytes: Vec<u8>,
    ghost within: { IsTrue (is_within labels.items (length bytes.items)) },
}

impl SentPackets {
    /// Returns an empty list.
    pub fn new(alloc: Global) -> SentPackets
        ensures { packets result.labels.items result.bytes.items ≡ [] }
    {
        SentPackets {
            labels: Vec::new(alloc),
            bytes: Vec::new(alloc),
        }
    }

    /// Returns the number of datagrams.
    pub fn len(&self) -> usize
        ensures { result ≡ length (packets self.now.labels.items self.now.bytes.items) }
    {
        self.labels.len()
    }

    /// Returns the address and the bytes of the datagram at `index`, from 0, or `None` if there are not that many.
    pub fn get(&self, index: usize) -> Option<(u64, &[u8])>
        ensures none { IsNone result ↔ (length (packets self.now.labels.items self.now.bytes.items) ≤ index) }
        ensures some { IfSome result (λ d. slice_get (packets self.now.labels.items self.now.bytes.items) index ≡ Some (record { address = d.0; bytes = d.1.now })) }
    {
        match self.labels.get(index) {
            Some(label) => Some((label.address, part(&self.bytes, label.start, label.len))),
            None => None,
        }
    }

    /// Removes all datagrams and keeps their memory.
    pub fn clear(&mut self)
        ensures packets { packets self.new.labels.items self.new.bytes.items ≡ [] }
        ensures lengths { (vec_len self.new.labels ≡ 0) × (vec_len self.new.bytes ≡ 0) }
        ensures capacity { (vec_capacity self.new.labels ≡ vec_capacity self.old.labels) × (vec_capacity self.new.bytes ≡ vec_capacity self.old.bytes) }
    {
        self.labels.clear();
        self.bytes.clear();
    }

    /// Appends a datagram. `NoMemory` if memory runs out; the list is then unchanged.
    pub fn add(&mut self, address: u64, bytes: &[u8]) -> Result<(), NoMemory>
        ensures ok { OnOk result (packets self.new.labels.items self.new.bytes.items ≡ packets self.old.labels.items self.old.bytes.items ++ (record { address = address; bytes = bytes.now }) ∷ []) }
        ensures err { OnErr result (packets self.new.labels.items self.new.bytes.items ≡ packets self.old.labels.items self.old.bytes.items) }
    {
        self.reserve(1, bytes.len())?;
        self.push(address, bytes);
        Ok(())
    }

    // Reserves memory for this many more datagrams and bytes.
    pub(crate) fn reserve(&mut self, datagrams: usize, bytes: usize) -> Result<(), NoMemory>
        ensures same { packets self.new.labels.items self.new.bytes.items ≡ packets self.old.labels.items self.old.bytes.items }
        ensures labels { vec_capacity self.old.labels ≤ vec_capacity self.new.labels }
        ensures bytes { vec_capacity self.old.bytes ≤ vec_capacity self.new.bytes }
        ensures lengths { (vec_len self.new.labels ≡ vec_len self.old.labels) × (vec_len self.new.bytes ≡ vec_len self.old.bytes) }
        ensures ok { OnOk result ((vec_len self.new.labels + datagrams ≤ vec_capacity self.new.labels) × (vec_len self.new.bytes + bytes ≤ vec_capacity self.new.bytes)) }
    {
        self.labels.reserve(datagrams)?;
        self.bytes.reserve(bytes)?;
        Ok(())
    }

    // Appends a datagram. The caller has reserved the room.
    pub(crate) fn push(&mut self, address: u64, bytes: &[u8])
        requires place { vec_len self.old.labels < vec_capacity self.old.labels }
        requires room { vec_len self.old.bytes + length bytes.now ≤ vec_capacity self.old.bytes }
        ensures packets { packets self.new.labels.items self.new.bytes.items ≡ packets self.old.labels.items self.old.bytes.items ++ (record { address = address; bytes = bytes.now }) ∷ [] }
        ensures labels { (vec_len self.new.labels ≡ vec_len self.old.labels + 1) × (vec_capacity self.new.labels ≡ vec_capacity self.old.labels) }
        ensures bytes { (vec_len self.new.bytes ≡ vec_len self.old.bytes + length bytes.now) × (vec_capacity self.old.bytes ≤ vec_capacity self.new.bytes) }
    {
        let start = self.bytes.len();
        append_reserved(&mut self.bytes, bytes);
        self.labels.push_reserved(Label {
            address,
            start,
            len: bytes.len(),
        });
    }
}

fn part(bytes: &[u8], start: usize, len: usize) -> &[u8]
    requires { start + len ≤ length bytes.now }
    ensures { result.now ≡ take len (drop start bytes.now) }
{
    &bytes[start..start + len]
}

fn append_reserved(all: &mut Vec<u8>, bytes: &[u8])
    requires { vec_len all.old + length bytes.now ≤ vec_capacity all.old }
    ensures items { all.new.items ≡ all.old.items ++ bytes.now }
    ensures len { vec_len all.new ≡ vec_len all.old + length bytes.now }
    ensures capacity { vec_capacity all.old ≤ vec_capacity all.new }
{
    let _ = all.extend_from_slice(bytes);
}
