//! The port of one cluster, over a port that the clusters of a network share.

ghost use Rattle.std.specs.Prelude.{◌≡◌, ◌≢◌, ℕ, ◌+◌, ◌++◌, ◌*◌, ◌≤◌, length, take, IfErr, IfOk, IfSome};
ghost use Rattle.crsm_port.specs.Meaning.{IsShort, Receives, Sends};
ghost use Rattle.crsm_port.specs.Passing.{HandsUpBy, PassesOn, PassesOnBy};
ghost use Rattle.crsm_port.specs.Cluster.{IsShortIn, clustered, given_to, sent_by, unwrapped, wrapped};
ghost use Rattle.crsm_wire.specs.Marks.{mark_of};

use crate::memory::copy;
use crate::{Port, Recv};
use crsm_base::{Failed, NoMemory};
use crsm_port_faults::raise;
use crsm_wire::{MARK_BYTES, mark};
use std::alloc::Global;

const MOST_SENT: usize = 8_183;
// Maximum length of a datagram with its mark, in bytes.
const MOST_ON_THE_WIRE: usize = 8_201;

/// A port of one of the clusters that share a network. On the wire each datagram is preceded by the byte 16 and the
/// number of its cluster; a datagram of another cluster is received as one without bytes. Datagrams of cluster 0 are
/// sent without a mark. A send of more than 8,183 bytes in a cluster other than 0 counts as a loss.
#[derive(Drop)]
pub struct ClusterPort<P> {
    inner: P,
    cluster: u64,
    // Buffer for a datagram with its mark.
    room: Vec<u8>,
    too_long: u64,
    ghost sized: { length room.items ≡ 8201 },
}

impl<P: Drop> ClusterPort<P> {
    /// Returns a port of the cluster over `inner`; or `NoMemory` and `inner` as it was if memory runs out.
    pub fn new(alloc: Global, inner: P, cluster: u64) -> Result<ClusterPort<P>, (NoMemory, P)>
        ensures made { IfOk result (λ p. (p.inner ≡ inner) × (p.cluster ≡ cluster) × (p.too_long ≡ 0)) }
        ensures back { IfErr result (λ e. e.1 ≡ inner) }
    {
        match Vec::from_elem(alloc, 0u8, MOST_ON_THE_WIRE) {
            Ok(room) => Ok(ClusterPort {
                inner,
                cluster,
                room,
                too_long: 0,
            }),
            Err(_) => Err((NoMemory, inner)),
        }
    }

    /// Returns the inner port.
    pub fn into_inner(self) -> P
        ensures { result ≡ self.inner }
    {
        self.inner
    }
}

// A datagram of another cluster is returned with a length of 0.
fn recv_wrapped<P: Port>(
    inner: &mut P,
    wire: &mut [u8],
    cluster: u64,
    buf: &mut [u8],
) -> Result<Recv, Failed>
    requires cluster { cluster ≢ 0 }
    requires room { length wire.old ≡ 8201 }
    ensures receives { (too_long : ℕ) → Receives (clustered cluster too_long (P.meaning inner.old)) (clustered cluster too_long (P.meaning inner.new)) buf.old buf.new result }
    ensures hands_up { HandsUpBy (λ p. given_to cluster (P.gives p)) (λ p. sent_by cluster (P.may_send p)) inner.old inner.new buf.new result }
{
    match inner.recv(wire) {
        Err(Failed) => Err(Failed),
        Ok(Recv::Nothing) => Ok(Recv::Nothing),
        Ok(Recv::Datagram { from, len }) => {
            let len = copy(own_bytes(&wire[..len], cluster), buf);
            Ok(Recv::Datagram { from, len })
        }
    }
}

impl<P: Port> ClusterPort<P> {
    // The caller has checked that the datagram fits in the buffer with its mark.
    fn send_wrapped(&mut self, to: u64, bytes: &[u8]) -> Result<(), Failed>
        requires cluster { self.old.cluster ≢ 0 }
        requires short { IsShort bytes.now }
        ensures inner { Sends to (wrapped self.old.cluster bytes.now) (P.meaning self.old.inner) (P.meaning self.new.inner) result }
        ensures passes_on { PassesOn (P.gives self.old.inner) (P.gives self.new.inner) (P.may_send self.old.inner) (P.may_send self.new.inner) to (wrapped self.old.cluster bytes.now) }
        ensures same { (self.new.cluster ≡ self.old.cluster) × (self.new.too_long ≡ self.old.too_long) }
    {
        let len = wrap(&mut self.room, self.cluster, bytes);
        self.inner.send(to, &self.room[..len])
    }
}

// Writes the mark and the datagram to the buffer, and returns their length.
fn wrap(room: &mut [u8], cluster: u64, bytes: &[u8]) -> usize
    requires { 9 + length bytes.now ≤ length room.old }
    ensures len { result ≡ 9 + length bytes.now }
    ensures bytes { take result room.new ≡ mark_of cluster ++ bytes.now }
{
    let (front, rest) = room.split_at_mut(MARK_BYTES);
    front.copy_from_slice(&mark(cluster));
    copy(bytes, rest) + MARK_BYTES
}

// Returns the bytes after the mark of the cluster, or none if they have no such mark.
fn own_bytes(wire: &[u8], cluster: u64) -> &[u8]
    requires { cluster ≢ 0 }
    ensures { result.now ≡ unwrapped cluster wire.now }
{
    match wire.starts_with(&mark(cluster)) {
        true => &wire[MARK_BYTES..],
        false => &[],
    }
}

impl<P: Port> Port for ClusterPort<P> {
    ghost meaning = { λ p. clustered p.cluster p.too_long (P.meaning p.inner) };

    ghost gives = { λ p. given_to p.cluster (P.gives p.inner) };

    ghost may_send = { λ p. sent_by p.cluster (P.may_send p.inner) };

    fn recv(&mut self, buf: &mut [u8]) -> Result<Recv, Failed> {
        match self.cluster {
            0 => self.inner.recv(buf),
            _ => recv_wrapped(&mut self.inner, &mut self.room, self.cluster, buf),
        }
    }

    fn send(&mut self, to: u64, bytes: &[u8]) -> Result<(), Failed>
        ensures sends { Sends to bytes.now (clustered self.old.cluster self.old.too_long (P.meaning self.old.inner)) (clustered self.new.cluster self.new.too_long (P.meaning self.new.inner)) result }
        ensures passes_on { PassesOnBy (λ p. given_to p.cluster (P.gives p.inner)) (λ p. sent_by p.cluster (P.may_send p.inner)) self.old self.new to bytes.now }
        ensures fits { IsShortIn self.old.cluster bytes.now → Sends to (wrapped self.old.cluster bytes.now) (P.meaning self.old.inner) (P.meaning self.new.inner) result }
        ensures too_long { (IsShortIn self.old.cluster bytes.now → ⊥) → P.meaning self.new.inner ≡ P.meaning self.old.inner }
        ensures counted { IsShortIn self.old.cluster bytes.now → self.new.too_long ≡ self.old.too_long }
    {
        if self.cluster == 0 {
            return self.inner.send(to, bytes);
        }
        if bytes.len() > MOST_SENT {
            raise(&mut self.too_long);
            return Err(Failed);
        }
        self.send_wrapped(to, bytes)
    }

    fn reserve(&mut self, sends: u64, bytes: u64) -> Result<(), NoMemory> {
        match with_marks(sends, bytes) {
            Some(bytes) => self.inner.reserve(sends, bytes),
            None => Err(NoMemory),
        }
    }

    fn poll_soon(&mut self) {
        self.inner.poll_soon()
    }

    fn wait_long(&mut self) {
        self.inner.wait_long()
    }

    fn flush(&mut self) {
        self.inner.flush()
    }
}

// Returns the bytes of `sends` datagrams with their marks, or `None` if that overflows.
fn with_marks(sends: u64, bytes: u64) -> Option<u64>
    ensures { IfSome result (λ n. n ≡ bytes + 9 * sends) }
{
    sends.checked_mul(MARK_BYTES as u64)?.checked_add(bytes)
}
