//! Which peers this node hears, and which of them hear it.

ghost use Rattle.std.specs.Prelude.{◌≡◌, ◌≢◌, ◌↔◌, ◌+◌, ◌-◌, ◌^◌, ◌<◌, ℕ, List, map, min, None, true, false, IfOk, IfSome, IsTrue};
ghost use Rattle.std.specs.Int.{IsBitSet, bit_at};
ghost use Rattle.crsm_port.specs.Meaning.{Packet, SendsAll};
ghost use Rattle.crsm_port.specs.Passing.{NoMore, either};
ghost use Rattle.crsm_port_flow.specs.Acks.{SaysHearing};
ghost use Rattle.crsm_port_flow.specs.Hears.{AreKnownBy, IsHeard, SaysHeard, SaysHears, Tells, unheard};
ghost use Rattle.crsm_port_flow.specs.Taken.{IsOfDeaf, IsPeer, IsSaid, IsStranger};

use crate::time::is_recent;
use crsm_base::NoMemory;
use crsm_port::Port;
use std::alloc::Global;

/// The first byte of a datagram that says whom a node hears. A replica's datagrams begin with others.
const HEARING: u8 = 18;

/// Time in microseconds between two such datagrams, and time for which a peer counts as heard.
const PAUSE: u64 = 1_000_000;

const HEARD_FOR: u64 = 2_000_000;

/// Number of such datagrams in a row from which on a peer that does not hear this node is not heard either.
const MOST_DEAF: u32 = 3;

/// A peer: its address, the reading at which a datagram of it came last, and how often in a row it said that it does
/// not hear this node.
#[derive(Clone, Copy)]
struct Peer {
    address: u64,
    heard_at: Option<u64>,
    deaf: u32,
}

impl Peer {
    /// Returns whether a datagram of the peer came a moment ago.
    fn is_heard(&self, now: u64) -> bool
        ensures { IsTrue result ↔ IsHeard now self.now }
    {
        match self.heard_at {
            Some(at) => is_recent(at, now, HEARD_FOR),
            None => false,
        }
    }

    /// Records what the peer says: whether it hears this node.
    fn note_said(&mut self, hears_me: bool)
        ensures hears { hears_me ≡ true → self.new ≡ record self.old { deaf = 0 } }
        ensures not { hears_me ≡ false → self.new ≡ record self.old { deaf = min (self.old.deaf + 1) (2 ^ 32 - 1) } }
    {
        self.deaf = if hears_me {
            0
        } else {
            self.deaf.saturating_add(1)
        };
    }
}

/// What a node knows of its peers. A link that loses all packets one way is closed in the other direction as well, so
/// that both its ends suspect each other. A peer that never says whom it hears is always heard.
#[derive(Drop)]
pub(crate) struct Hearing {
    me: usize,
    peers: Vec<Peer>,
    said_at: Option<u64>,
}

/// What becomes of a datagram from an address.
#[derive(Clone, Copy, PartialEq)]
pub(crate) enum Heard {
    /// It is handed up.
    Open,
    /// It comes from a peer that does not hear this node.
    Closed,
    /// It says whom a peer hears.
    Says,
    /// It comes from nobody who is a peer.
    Stranger,
}

/// Returns whether the bit of a replica is set.
fn has_bit(mask: u16, replica: usize) -> bool
    ensures { IsTrue result ↔ (replica < 16) × IsBitSet mask replica }
{
    replica < 16 && mask >> replica & 1 == 1
}

/// Returns the mask with the bit of a replica set.
fn with_bit(mask: u16, replica: usize) -> u16
    requires { replica < 16 }
    ensures set { bit_at result replica ≡ 1 }
    ensures others { (k : ℕ) → k ≢ replica → bit_at result k ≡ bit_at mask k }
{
    mask | (1 << replica)
}

/// Returns whether the bytes say that their sender hears a replica, or `None` if they say nothing of hearing.
fn hears_in(bytes: &[u8], replica: usize) -> Option<bool>
    ensures said { IfSome result (λ hears. IsSaid bytes.now × (IsTrue hears ↔ SaysHears replica bytes.now)) }
    ensures nothing { result ≡ None → IsSaid bytes.now → ⊥ }
{
    match bytes {
        [HEARING, high, low, ..] => { Some(has_bit(u16::from_be_bytes([*high, *low]), replica)) }
        _ => None,
    }
}

impl Hearing {
    /// Returns what replica `me` knows before the first datagram, where replica `k` has the address `peers[k]`.
    /// `NoMemory` if memory runs out.
    pub(crate) fn new(alloc: Global, me: usize, peers: &[u64]) -> Result<Hearing, NoMemory>
        ensures { IfOk result (λ h. (h.me ≡ me) × (h.peers.items ≡ map unheard peers.now) × (h.said_at ≡ None)) }
    {
        let mut known = Vec::with_capacity(alloc, peers.len())?;
        for address in peers {
            known.push(Peer {
                address: *address,
                heard_at: None,
                deaf: 0,
            })?;
        }
        Ok(Hearing {
            me,
            peers: known,
            said_at: None,
        })
    }

    /// Records a datagram, and returns what becomes of it.
    pub(crate) fn note(&mut self, from: u64, bytes: &[u8], now: u64) -> Heard
        ensures stranger { result ≡ Heard.Stranger → IsStranger from self.old.peers.items }
        ensures peer { result ≡ Heard.Open → IsPeer from self.old.peers.items }
        ensures says { result ≡ Heard.Says → IsSaid bytes.now }
        ensures closed { result ≡ Heard.Closed → IsOfDeaf from self.old.peers.items }
        ensures known { AreKnownBy self.old.me from bytes.now now self.old.peers.items self.new.peers.items }
        ensures me { self.new.me ≡ self.old.me }
        ensures said_at { self.new.said_at ≡ self.old.said_at }
    {
        let said = hears_in(bytes, self.me);
        let Some(place) = self.peers.iter().position(|peer| peer.address == from) else {
            return Heard::Stranger;
        };
        let Some(peer) = self.peers.get_mut(place) else {
            return Heard::Stranger;
        };
        peer.heard_at = Some(now);
        if let Some(hears_me) = said {
            peer.note_said(hears_me);
            return Heard::Says;
        }
        if peer.deaf >= MOST_DEAF {
            Heard::Closed
        } else {
            Heard::Open
        }
    }

    /// Returns the datagram that says whom this node hears: a bit for each replica, replica 0 the lowest.
    fn saying(&self, now: u64) -> [u8; 3]
        ensures { SaysHeard now self.now.peers.items result }
    {
        let mut mask = 0u16;
        for (replica, peer) in self.peers.iter().enumerate() {
            if replica < 16 && peer.is_heard(now) {
                mask = with_bit(mask, replica);
            }
        }
        let [high, low] = mask.to_be_bytes();
        [HEARING, high, low]
    }

    /// Says to each peer whom this node hears, once a second.
    pub(crate) fn say<P: Port>(&mut self, now: u64, port: &mut P)
        ensures same { self.new ≡ record self.old { said_at = self.new.said_at } }
        ensures said { (said : List Packet) × Tells now self.old self.new said × SendsAll said (P.meaning port.old) (P.meaning port.new) }
        ensures gives { NoMore (P.gives port.old) (P.gives port.new) }
        ensures sends { NoMore (either (P.may_send port.old) SaysHearing) (P.may_send port.new) }
    {
        if self.said_at.is_some_and(|at| is_recent(at, now, PAUSE)) {
            return;
        }
        self.said_at = Some(now);
        let saying = self.saying(now);
        for (replica, peer) in self.peers.iter().enumerate() {
            if replica != self.me {
                let _ = port.send(peer.address, &saying);
            }
        }
    }
}
