//! When a packet came from a peer, and when one went to it.

ghost use Rattle.std.specs.Prelude.{◌≡◌, ◌⊎◌, ◌↔◌, ◌∷◌, [], IsTrue, Result, Some};
ghost use Rattle.crsm_base.specs.declared.memory.Failed.{Failed};
ghost use Rattle.crsm_port.specs.Meaning.{Sends};
ghost use Rattle.crsm_port.specs.Passing.{NoMore};
ghost use Rattle.crsm_port_packets.specs.Carrying.{carried};
ghost use Rattle.crsm_port_packets.specs.Peers.{IsSince, unheard};

use crate::format::BUNDLE_HEAD;
use crsm_port::Port;

/// Time in microseconds for which a peer is spoken to in packets after one came from it. Where a clock makes it longer, a
/// peer that no longer reads packets loses them, as a network may.
const SPEAKS_FOR: u64 = 3_000_000;

/// Maximum time in microseconds between two packets with the byte 20 to a peer.
const GREETING_PAUSE: u64 = 1_000_000;

/// A peer: its address, and the readings at which a packet with the byte 20 came from it and went to it last.
#[derive(Clone, Copy)]
pub(crate) struct Peer {
    pub(crate) address: u64,
    heard_at: Option<u64>,
    greeted_at: Option<u64>,
}

/// Returns whether less than `time` has passed since a reading, and the clock did not go back.
fn is_within(since: Option<u64>, now: u64, time: u64) -> bool
    ensures { IsTrue result ↔ IsSince since now time }
{
    match since {
        Some(at) => at <= now && now - at < time,
        None => false,
    }
}

impl Peer {
    /// Returns a peer from which no packet came.
    pub(crate) fn new(address: u64) -> Peer
        ensures { result ≡ unheard address }
    {
        Peer {
            address,
            heard_at: None,
            greeted_at: None,
        }
    }

    /// Records that a packet with the byte 20 came from the peer.
    pub(crate) fn note_heard(&mut self, now: u64)
        ensures { self.new ≡ record self.old { heard_at = Some now } }
    {
        self.heard_at = Some(now);
    }

    /// Records that a packet with the byte 20 went to the peer.
    pub(crate) fn note_greeted(&mut self, now: u64)
        ensures { self.new ≡ record self.old { greeted_at = Some now } }
    {
        self.greeted_at = Some(now);
    }

    /// Returns whether the peer reads packets with the byte 20.
    pub(crate) fn speaks(&self, now: u64) -> bool
        ensures { IsTrue result ↔ IsSince self.now.heard_at now 3_000_000 }
    {
        is_within(self.heard_at, now, SPEAKS_FOR)
    }

    /// Sends a greeting if no packet with the byte 20 went to the peer for a second.
    pub(crate) fn greet<P: Port>(&mut self, now: u64, port: &mut P)
        ensures gives { NoMore (P.gives port.old) (P.gives port.new) }
        ensures sends { NoMore (carried (P.may_send port.old)) (carried (P.may_send port.new)) }
        ensures goes { (port.new ≡ port.old) ⊎ ((result : Result (Unit {0}) Failed) × Sends self.old.address (20 ∷ 0 ∷ []) (P.meaning port.old) (P.meaning port.new) result) }
        ensures same { self.new ≡ record self.old { greeted_at = self.new.greeted_at } }
    {
        if is_within(self.greeted_at, now, GREETING_PAUSE) {
            return;
        }
        self.greeted_at = Some(now);
        let _ = port.send(self.address, &BUNDLE_HEAD);
    }
}
