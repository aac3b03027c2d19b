//! `PeerPort`: a check that datagrams come from the address of the replica that they name.

ghost use Rattle.std.specs.Prelude.{◌≡◌, ◌↔◌, IsTrue, IfOk, Some, length, slice_get};
ghost use Rattle.crsm_port.specs.Meaning.{Receives, Reserves, Sends};
ghost use Rattle.crsm_port.specs.Passing.{HandsUpBy, PassesOnBy, RestsBy};
ghost use Rattle.crsm_port_peers.specs.New.{IsNew};
ghost use Rattle.crsm_port_peers.specs.Senders.{IsOfFirst, IsOwn, SpeaksForItself, counts_of};
ghost use Rattle.crsm_port_peers.specs.Traffic.{given_over, sent_over};

use crsm_base::{Failed, NoMemory};
use crsm_port::{Port, Recv};
use crsm_wire::{sender_in, unmarked};

/// A port over a port, for a replica whose peers have these addresses. A datagram that names the replica that it comes
/// from (a frame, an acknowledgement or a part) is returned only from that replica's address, and without bytes from
/// any other. All other datagrams are returned unchanged. Its counters equal those of the inner port.
#[derive(Drop)]
pub struct PeerPort<P> {
    inner: P,
    peers: Vec<u64>,
}

impl<P: Drop> PeerPort<P> {
    /// Returns a port over `inner`, where replica `k` has the address `peers[k]` (IPv4 x 65,536 + port).
    pub fn new(inner: P, peers: Vec<u64>) -> PeerPort<P>
        ensures { IsNew inner peers.items result }
    {
        PeerPort { inner, peers }
    }
}

// Returns whether the replica has this address.
fn has_address(peers: &[u64], replica: u8, address: u64) -> bool
    ensures { IsTrue result ↔ (slice_get peers.now replica ≡ Some address) }
{
    peers.get(replica as usize) == Some(&address)
}

// Returns whether bytes from this address may name the sender that they name.
fn speaks_for_itself(peers: &[u64], address: u64, bytes: &[u8]) -> bool
    ensures { IsTrue result ↔ SpeaksForItself peers.now address bytes.now }
{
    match sender_in(unmarked(bytes)) {
        Some(from) => has_address(peers, from, address),
        None => true,
    }
}

impl<P: Port> Port for PeerPort<P> {
    ghost meaning = { λ p. counts_of (P.meaning p.inner) };

    ghost gives = { given_over P.gives };

    ghost may_send = { sent_over P.may_send };

    fn recv(&mut self, buf: &mut [u8]) -> Result<Recv, Failed>
        ensures tells { Receives (counts_of (P.meaning self.old.inner)) (counts_of (P.meaning self.new.inner)) buf.old buf.new result }
        ensures hands_up { HandsUpBy (given_over P.gives) (sent_over P.may_send) self.old self.new buf.new result }
        ensures own { IfOk result (IsOwn self.old.peers.items buf.new) }
        ensures first { IfOk result (IsOfFirst self.old.peers.items (P.meaning self.old.inner) (P.meaning self.new.inner) (length buf.old) buf.new) }
        ensures peers { self.new.peers ≡ self.old.peers }
    {
        match self.inner.recv(buf)? {
            Recv::Datagram { from, len } if !speaks_for_itself(&self.peers, from, &buf[..len]) => {
                Ok(Recv::Datagram { from, len: 0 })
            }
            got => Ok(got),
        }
    }

    fn send(&mut self, to: u64, bytes: &[u8]) -> Result<(), Failed>
        ensures tells { Sends to bytes.now (counts_of (P.meaning self.old.inner)) (counts_of (P.meaning self.new.inner)) result }
        ensures passes_on { PassesOnBy (given_over P.gives) (sent_over P.may_send) self.old self.new to bytes.now }
        ensures below { Sends to bytes.now (P.meaning self.old.inner) (P.meaning self.new.inner) result }
        ensures peers { self.new.peers ≡ self.old.peers }
    {
        self.inner.send(to, bytes)
    }

    fn reserve(&mut self, sends: u64, bytes: u64) -> Result<(), NoMemory>
        ensures tells { Reserves sends bytes (counts_of (P.meaning self.old.inner)) (counts_of (P.meaning self.new.inner)) result }
        ensures rests { RestsBy (given_over P.gives) (sent_over P.may_send) self.old self.new }
        ensures below { Reserves sends bytes (P.meaning self.old.inner) (P.meaning self.new.inner) result }
        ensures peers { self.new.peers ≡ self.old.peers }
    {
        self.inner.reserve(sends, bytes)
    }

    fn poll_soon(&mut self)
        ensures tells { counts_of (P.meaning self.new.inner) ≡ counts_of (P.meaning self.old.inner) }
        ensures rests { RestsBy (given_over P.gives) (sent_over P.may_send) self.old self.new }
        ensures below { P.meaning self.new.inner ≡ P.meaning self.old.inner }
        ensures peers { self.new.peers ≡ self.old.peers }
    {
        self.inner.poll_soon()
    }

    fn wait_long(&mut self)
        ensures tells { counts_of (P.meaning self.new.inner) ≡ counts_of (P.meaning self.old.inner) }
        ensures rests { RestsBy (given_over P.gives) (sent_over P.may_send) self.old self.new }
        ensures below { P.meaning self.new.inner ≡ P.meaning self.old.inner }
        ensures peers { self.new.peers ≡ self.old.peers }
    {
        self.inner.wait_long()
    }

    fn flush(&mut self)
        ensures tells { counts_of (P.meaning self.new.inner) ≡ counts_of (P.meaning self.old.inner) }
        ensures rests { RestsBy (given_over P.gives) (sent_over P.may_send) self.old self.new }
        ensures below { P.meaning self.new.inner ≡ P.meaning self.old.inner }
        ensures peers { self.new.peers ≡ self.old.peers }
    {
        self.inner.flush()
    }
}
