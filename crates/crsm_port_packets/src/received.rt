//! What was received and is not handed up yet.

ghost use Rattle.std.specs.List.{filter};
ghost use Rattle.std.specs.Prelude.{◌≡◌, ◌⊎◌, [], IfOk, IfSome, None, length};
ghost use Rattle.crsm_port.specs.Meaning.{IsWithin};
ghost use Rattle.crsm_port.specs.Passing.{Cut, IsOf, NoMore, Only};
ghost use Rattle.crsm_port_faults.specs.Counts.{Rose};
ghost use Rattle.crsm_port_packets.specs.Carrying.{put_together};
ghost use Rattle.crsm_port_packets.specs.Format.{StandsIn};
ghost use Rattle.crsm_port_packets.specs.Held.{Opens, fragments_with};
ghost use Rattle.crsm_port_packets.specs.Kept.{is_recent};
ghost use Rattle.crsm_port_packets.specs.Receiving.{Begins, IsDatagram, IsOpened, NoneLeft, TakesNext, left_in};
ghost use Rattle.crsm_port_packets.specs.Waiting.{waiting_in};

use crate::format::{MOST_FRAGMENTS, MOST_IN_FRAGMENT, PacketKind, kind_of};
use crate::fragments::Fragments;
use crate::unpacking::{Unpacking, hand_up};
use crsm_base::NoMemory;
use crsm_port::Recv;
use crsm_port_faults::raise;
use std::alloc::Global;

/// The bundle that is being taken apart, and fragments whose datagrams are not whole.
#[derive(Drop)]
pub(crate) struct Received {
    unpacking: Unpacking,
    fragments: Fragments,
    // A datagram that was put together.
    whole: Vec<u8>,
    // The number of packets that were lost for want of memory.
    unkept: u64,
}

impl Received {
    /// Returns a state in which nothing was received. `NoMemory` if memory runs out.
    pub(crate) fn new(alloc: Global) -> Result<Received, NoMemory>
        ensures { IfOk result (λ r. (left_in r.unpacking ≡ []) × (r.fragments.pieces.items ≡ [])) }
    {
        Ok(Received {
            unpacking: Unpacking::new(alloc),
            fragments: Fragments::new(alloc),
            whole: Vec::with_capacity(alloc, MOST_IN_FRAGMENT * MOST_FRAGMENTS)?,
            unkept: 0,
        })
    }

    /// Returns the next datagram of the bundle that is being taken apart, cut to the buffer, or `None`.
    pub(crate) fn next(&mut self, buf: &mut [u8]) -> Option<Recv>
        ensures within { IfSome result (IsWithin (length buf.old)) }
        ensures waited { IfSome result (IsOf (Cut (waiting_in self.old.unpacking)) buf.new) }
        ensures some { IfSome result IsDatagram }
        ensures next { IfSome result (TakesNext self.old.unpacking self.new.unpacking (length buf.old) buf.new) }
        ensures none { result ≡ None → NoneLeft self.old.unpacking × (self.new ≡ self.old) }
        ensures rest { NoMore (waiting_in self.old.unpacking) (waiting_in self.new.unpacking) }
        ensures same { self.new.fragments ≡ self.old.fragments }
    {
        self.unpacking.take(buf)
    }

    /// Takes the entries of a bundle in place of the last one. If memory runs out this is counted, and the bundle is lost.
    fn begin(&mut self, from: u64, entries: &[u8])
        ensures only { NoMore (λ address d. (address ≡ from) × StandsIn d entries.now) (waiting_in self.new.unpacking) }
        ensures begins { Begins from entries.now self.new.unpacking ⊎ Rose self.old.unkept self.new.unkept }
        ensures fragments { self.new.fragments ≡ self.old.fragments }
    {
        match self.unpacking.begin(from, entries) {
            Ok(()) => {}
            Err(NoMemory) => raise(&mut self.unkept),
        }
    }

    /// Lets go of the fragments that came ten seconds before this reading or earlier, or at a reading after it.
    pub(crate) fn forget_old(&mut self, now: u64)
        ensures kept { self.new.fragments.pieces.items ≡ filter (is_recent now) self.old.fragments.pieces.items }
        ensures same { self.new ≡ record self.old { fragments = self.new.fragments } }
    {
        self.fragments.forget_old(now);
    }

    /// Takes a packet that came at this reading and is no plain datagram, and returns its datagram, cut to the buffer,
    /// if it was the last fragment of one. The datagrams of a bundle are returned by `next`. If memory runs out the
    /// packet is lost, as any may be.
    pub(crate) fn take(
        &mut self,
        from: u64,
        now: u64,
        packet: &[u8],
        buf: &mut [u8],
    ) -> Option<Recv>
        ensures within { IfSome result (IsWithin (length buf.old)) }
        ensures some { IfSome result IsDatagram }
        ensures whole { IfSome result (IsOf (Cut (put_together (fragments_with (Only from packet.now) self.old))) buf.new) }
        ensures opens { Opens from packet.now self.old self.new }
        ensures opened { result ≡ None → IsOpened from now packet.now self.old self.new }
    {
        match kind_of(packet) {
            PacketKind::Bundle(entries) => {
                self.begin(from, entries);
                None
            }
            PacketKind::Fragment(fragment) => {
                self.whole.clear();
                match self.fragments.add(from, now, &fragment, &mut self.whole) {
                    Ok(true) => Some(hand_up(from, self.whole.as_slice(), buf)),
                    Ok(false) => None,
                    Err(NoMemory) => {
                        raise(&mut self.unkept);
                        None
                    }
                }
            }
            PacketKind::Other => None,
        }
    }
}
