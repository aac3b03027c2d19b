//! Acknowledgements that are held back until the next flush.

ghost use Rattle.std.specs.Prelude.{◌≡◌, ◌≤◌, [], take, length, map, true, false, IfOk};
ghost use Rattle.crsm_port.specs.Meaning.{SendsAll};
ghost use Rattle.crsm_port.specs.Passing.{NoMore, OneMore};
ghost use Rattle.crsm_port_flow.specs.Acks.{AtPlaceOf, StayHeld, held_in, packet_of, sent_with};

use crsm_base::NoMemory;
use crsm_port::Port;
use std::alloc::Global;

/// Maximum length of an acknowledgement in bytes: 19, and 9 for the mark of a cluster.
const MOST_BYTES: usize = 28;

/// Maximum number of addresses with a held acknowledgement: one for each replica.
const MOST_HELD: usize = 15;

/// A held acknowledgement, and the address that it is for.
#[derive(Clone, Copy)]
struct Ack {
    to: u64,
    bytes: [u8; MOST_BYTES],
    len: usize,
}

impl Ack {
    /// Returns an acknowledgement of at most 28 bytes.
    fn new(to: u64, bytes: &[u8]) -> Ack
        requires { length bytes.now ≤ 28 }
        ensures { packet_of result ≡ record { address = to; bytes = bytes.now } }
    {
        let len = bytes.len();
        let mut room = [0; MOST_BYTES];
        room[..len].copy_from_slice(bytes);
        Ack {
            to,
            bytes: room,
            len,
        }
    }

    /// Returns the bytes of the acknowledgement.
    fn datagram(&self) -> &[u8]
        ensures { result.now ≡ take self.now.len self.now.bytes }
    {
        &self.bytes[..self.len.min(MOST_BYTES)]
    }
}

/// The latest acknowledgement for each address; it covers all earlier ones.
#[derive(Drop)]
pub(crate) struct LastAcks {
    acks: Vec<Ack>,
}

impl LastAcks {
    /// Returns an empty buffer with room for all, or `NoMemory` if memory runs out.
    pub(crate) fn new(alloc: Global) -> Result<LastAcks, NoMemory>
        ensures { IfOk result (λ a. a.acks.items ≡ []) }
    {
        Ok(LastAcks {
            acks: Vec::with_capacity(alloc, MOST_HELD)?,
        })
    }

    /// Holds an acknowledgement in place of the earlier one for its address, and returns whether it did.
    pub(crate) fn hold(&mut self, to: u64, bytes: &[u8]) -> bool
        ensures only { OneMore to bytes.now (held_in self.old.acks.items) (held_in self.new.acks.items) }
        ensures held { result ≡ true → held_in self.new.acks.items to bytes.now }
        ensures stay { StayHeld to bytes.now self.old.acks.items self.new.acks.items }
        ensures not { result ≡ false → self.new.acks.items ≡ self.old.acks.items }
    {
        if bytes.len() > MOST_BYTES {
            return false;
        }
        let ack = Ack::new(to, bytes);
        match self.acks.iter().position(|held| held.to == to) {
            Some(place) => self.replace(place, ack),
            None => self.acks.len() < MOST_HELD && self.acks.push(ack).is_ok(),
        }
    }

    /// Puts an acknowledgement in the place of another, and returns whether there is such a place.
    fn replace(&mut self, place: usize, ack: Ack) -> bool
        requires { AtPlaceOf ack place self.old.acks.items }
        ensures only { OneMore ack.to (take ack.len ack.bytes) (held_in self.old.acks.items) (held_in self.new.acks.items) }
        ensures stay { StayHeld ack.to (take ack.len ack.bytes) self.old.acks.items self.new.acks.items }
        ensures not { result ≡ false → self.new.acks.items ≡ self.old.acks.items }
        ensures held { result ≡ true → held_in self.new.acks.items ack.to (take ack.len ack.bytes) }
    {
        match self.acks.get_mut(place) {
            Some(held) => {
                *held = ack;
                true
            }
            None => false,
        }
    }

    /// Sends all held acknowledgements.
    pub(crate) fn let_go<P: Port>(&mut self, port: &mut P)
        ensures all { self.new.acks.items ≡ [] }
        ensures each { SendsAll (map packet_of self.old.acks.items) (P.meaning port.old) (P.meaning port.new) }
        ensures gives { NoMore (P.gives port.old) (P.gives port.new) }
        ensures sends { NoMore (sent_with (P.may_send port.old) self.old.acks.items) (sent_with (P.may_send port.new) self.new.acks.items) }
    {
        for ack in &self.acks {
            let _ = port.send(ack.to, ack.datagram());
        }
        self.acks.clear();
    }
}
