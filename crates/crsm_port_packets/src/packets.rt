//! `PacketsPort`: packets of a size that networks carry whole.

ghost use Rattle.std.specs.List.{filter};
ghost use Rattle.std.specs.Prelude.{◌≡◌, ◌<◌, ◌≤◌, ◌⊎◌, List, [], Contains, None, false, true, take, IfOk, IfSome, OnErr, OnOk, length, vec_capacity};
ghost use Rattle.crsm_clock.specs.Readings.{Gives};
ghost use Rattle.crsm_port.specs.Meaning.{CountsEmpty, IsWithin, Packet, Receives, Reserves, Sends, SendsAll};
ghost use Rattle.crsm_port.specs.Passing.{Among, HandsUpBy, IsOf, NoMore, OneMore, Only, PassesOnBy, RestsBy, either};
ghost use Rattle.crsm_port.specs.Sent.{packets_of};
ghost use Rattle.crsm_port.specs.Unknown.{unknown};
ghost use Rattle.crsm_port_faults.specs.Counts.{Rose};
ghost use Rattle.crsm_port_packets.specs.Carrying.{carried, put_together};
ghost use Rattle.crsm_port_packets.specs.Cutting.{AreApart, AreOfCuts, SendsCut, fragments_of, name_of};
ghost use Rattle.crsm_port_packets.specs.Format.{is_packed};
ghost use Rattle.crsm_port_packets.specs.Given.{AllGreet, LetsGo, LetsGoAndGreets, MayLetGo};
ghost use Rattle.crsm_port_packets.specs.Held.{Opens, fragments_with, unpacked};
ghost use Rattle.crsm_port_packets.specs.Kept.{is_recent};
ghost use Rattle.crsm_port_packets.specs.Peers.{IsPeer, SamePeers, Speaks, addresses_of};
ghost use Rattle.crsm_port_packets.specs.Receiving.{IsAsItIs, IsDatagram, IsOpenedOf, NoneLeft, left_in};
ghost use Rattle.crsm_port_packets.specs.Sent.{sent_with};

use crate::bundle::send_waiting;
use crate::cutting::send_fragments;
use crate::format::{BUNDLE_HEAD, LENGTH_BYTES, MOST_BYTES, is_packed, name_of};
use crate::peer::Peer;
use crate::received::Received;
use crate::unpacking::hand_up;
use crsm_base::{Failed, NoMemory};
use crsm_clock::Clock;
use crsm_port::{Port, Recv, SentPackets};
use crsm_port_faults::raise;
use std::alloc::Global;

/// Maximum length of a datagram in bytes, with the mark of a cluster.
const MOST_RECEIVED: usize = 8_201;

/// Maximum length of a packet before it is known whether it goes as a bundle or as its one datagram.
const MOST_BUFFERED: usize = MOST_BYTES + BUNDLE_HEAD.len() + LENGTH_BYTES;

/// Maximum number of datagrams that wait for others to their address.
const MOST_WAITING: usize = 4_096;

/// Maximum number of packets without a datagram that a receive takes.
const MOST_EMPTY: usize = 64;

/// A port over a port on which a packet is not longer than 1,232 bytes. Datagrams to one address wait for the next
/// `flush` or receive, and go out as one packet; a longer datagram goes out as up to 7 fragments, and is handed up if all
/// arrive within ten seconds. All this is for peers alone, and for a peer from which such a packet came within three
/// seconds; each peer is sent one every second. To any other address each datagram goes out as it is.
///
/// A datagram that waits is answered as sent. Each call says what goes up, what goes out and what waits.
#[derive(Drop)]
pub struct PacketsPort<P, C> {
    port: P,
    clock: C,
    // The clock's reading before the next sends, in microseconds.
    now: u64,
    peers: Vec<Peer>,
    // A received packet.
    room: Vec<u8>,
    // The datagrams that wait for others to their address.
    waiting: SentPackets,
    // A packet to be sent.
    packet: Vec<u8>,
    received: Received,
    // Whether the next receive must not wait.
    is_soon: bool,
    faults: u64,
    losses: u64,
    empties: u64,
    ghost roomy: { 1236 ≤ vec_capacity packet },
}

impl<P: Drop, C: Drop> PacketsPort<P, C> {
    ghost use Rattle.crsm_port_packets.specs.New.{IsNew};

    /// Returns a port over `inner` that reads `clock`, in microseconds, for a node whose peers have these addresses
    /// (IPv4 x 65,536 + port). `NoMemory` if memory runs out.
    pub fn new(
        alloc: Global,
        inner: P,
        clock: C,
        peers: &[u64],
    ) -> Result<PacketsPort<P, C>, NoMemory>
        ensures made { IfOk result (IsNew inner clock peers.now) }
        ensures nothing { IfOk result (λ p. (left_in p.received.unpacking ≡ []) × (p.received.fragments.pieces.items ≡ [])) }
    {
        let mut known = Vec::with_capacity(alloc, peers.len())?;
        for address in peers {
            known.push(Peer::new(*address))?;
        }
        Ok(PacketsPort {
            port: inner,
            clock,
            now: 0,
            peers: known,
            room: Vec::from_elem(alloc, 0u8, MOST_RECEIVED)?,
            waiting: SentPackets::new(alloc),
            packet: Vec::with_capacity(alloc, MOST_BUFFERED)?,
            received: Received::new(alloc)?,
            is_soon: false,
            faults: 0,
            losses: 0,
            empties: 0,
        })
    }
}

impl<P: Port, C> PacketsPort<P, C> {
    /// States that where each fragment that came is of a datagram that was cut, and no two of these from one address
    /// begin with the same 36 bytes, nothing but these is put together. It runs no code.
    pub fn puts_together_what_was_cut(&self)
        ensures { (cuts : List Packet) → AreApart (Among cuts) → AreOfCuts (Among cuts) (fragments_with (P.gives self.entry.now.port) self.entry.now.received)
            → NoMore (Among cuts) (put_together (fragments_with (P.gives self.entry.now.port) self.entry.now.received)) }
    {}
}

/// Returns the packet of this length in the buffer.
fn front(room: &[u8], len: usize) -> &[u8]
    requires { len ≤ length room.now }
    ensures { result.now ≡ take len room.now }
{
    &room[..len]
}

/// Records that a packet with the byte 20 came from this address, and returns whether it is a peer's.
fn note_heard(peers: &mut Vec<Peer>, from: u64, now: u64) -> bool
    ensures peer { result ≡ true → Contains (addresses_of peers.old.items) from }
    ensures stranger { result ≡ false → IsPeer from peers.old.items → ⊥ }
    ensures still { result ≡ false → peers.new.items ≡ peers.old.items }
    ensures addresses { addresses_of peers.new.items ≡ addresses_of peers.old.items }
{
    let Some(place) = peers.iter().position(|peer| peer.address == from) else {
        return false;
    };
    let Some(peer) = peers.get_mut(place) else {
        return false;
    };
    peer.note_heard(now);
    true
}

/// Sends the datagrams that wait for peers, in packets.
fn send_to_each<P: Port>(
    peers: &mut [Peer],
    waiting: &SentPackets,
    now: u64,
    packet: &mut Vec<u8>,
    port: &mut P,
)
    requires { 1236 ≤ vec_capacity packet.old }
    ensures gives { NoMore (P.gives port.old) (P.gives port.new) }
    ensures sends { NoMore (sent_with (P.may_send port.old) (packets_of waiting.now)) (carried (P.may_send port.new)) }
    ensures goes { LetsGo (addresses_of peers.old) (packets_of waiting.now) (P.meaning port.old) (P.meaning port.new) }
    ensures peers { SamePeers peers.old peers.new }
    ensures capacity { 1236 ≤ vec_capacity packet.new }
{
    for peer in peers {
        if send_waiting(waiting, peer.address, packet, port) {
            peer.note_greeted(now);
        }
    }
}

/// Sends a greeting to each peer to which no packet with the byte 20 went for a second.
fn greet_each<P: Port>(peers: &mut [Peer], now: u64, port: &mut P)
    ensures gives { NoMore (P.gives port.old) (P.gives port.new) }
    ensures sends { NoMore (carried (P.may_send port.old)) (carried (P.may_send port.new)) }
    ensures goes { (greetings : List Packet) × AllGreet (addresses_of peers.old) greetings × SendsAll greetings (P.meaning port.old) (P.meaning port.new) }
    ensures peers { SamePeers peers.old peers.new }
{
    for peer in peers {
        peer.greet(now, port);
    }
}

impl<P: Port, C: Clock> PacketsPort<P, C> {
    ghost use Rattle.crsm_port_packets.specs.Asking.{Asks, AsksUntil, taker_of};
    ghost use Rattle.crsm_port_packets.specs.Sending.{IsKept, IsLostBelow, IsPassedOn, IsRefused, sender_of};

    /// Sends the datagrams that wait.
    fn let_go(&mut self)
        ensures gives { NoMore (P.gives self.old.port) (P.gives self.new.port) }
        ensures sends { NoMore (sent_with (P.may_send self.old.port) (packets_of self.old.waiting)) (sent_with (P.may_send self.new.port) (packets_of self.new.waiting)) }
        ensures received { self.new.received ≡ self.old.received }
        ensures same { self.new ≡ record self.old { port = self.new.port; peers = self.new.peers; waiting = self.new.waiting; packet = self.new.packet; roomy = self.new.roomy } }
        ensures none { packets_of self.new.waiting ≡ [] }
        ensures goes { LetsGo (addresses_of self.old.peers.items) (packets_of self.old.waiting) (P.meaning self.old.port) (P.meaning self.new.port) }
        ensures peers { SamePeers self.old.peers.items self.new.peers.items }
    {
        if self.waiting.len() == 0 {
            return;
        }
        let peers = self.peers.as_mut_slice();
        send_to_each(
            peers,
            &self.waiting,
            self.now,
            &mut self.packet,
            &mut self.port,
        );
        self.waiting.clear();
    }

    /// Returns the next datagram, or `Nothing`.
    fn next(&mut self, buf: &mut [u8]) -> Result<Recv, Failed>
        ensures within { IfOk result (IsWithin (length buf.old)) }
        ensures given { IfOk result (IsOf (unpacked (P.gives self.old.port) self.old.received) buf.new) }
        ensures rest { NoMore (unpacked (P.gives self.old.port) self.old.received) (unpacked (P.gives self.new.port) self.new.received) }
        ensures sends { NoMore (P.may_send self.old.port) (P.may_send self.new.port) }
        ensures waiting { self.new.waiting ≡ self.old.waiting }
        ensures same { self.new ≡ record self.old { port = self.new.port; peers = self.new.peers; room = self.new.room; received = self.new.received } }
        ensures asks { AsksUntil (addresses_of self.old.peers.items) self.old.now (length buf.old) buf.new (taker_of (P.meaning self.old.port) self.old) (taker_of (P.meaning self.new.port) self.new) result }
        ensures addresses { addresses_of self.new.peers.items ≡ addresses_of self.old.peers.items }
    {
        for _ in 0..MOST_EMPTY {
            if let Some(got) = self.next_or_none(buf)? {
                return Ok(got);
            }
        }
        Ok(Recv::Nothing)
    }

    /// Returns the next datagram of the bundle that is being taken apart, or else of the next packet if it is one, or
    /// `Nothing`.
    fn next_or_none(&mut self, buf: &mut [u8]) -> Result<Option<Recv>, Failed>
        ensures within { IfOk result (λ got. IfSome got (IsWithin (length buf.old))) }
        ensures given { IfOk result (λ got. IfSome got (IsOf (unpacked (P.gives self.old.port) self.old.received) buf.new)) }
        ensures rest { NoMore (unpacked (P.gives self.old.port) self.old.received) (unpacked (P.gives self.new.port) self.new.received) }
        ensures sends { NoMore (P.may_send self.old.port) (P.may_send self.new.port) }
        ensures same { self.new ≡ record self.old { port = self.new.port; peers = self.new.peers; room = self.new.room; received = self.new.received } }
        ensures asks { Asks (addresses_of self.old.peers.items) self.old.now (length buf.old) buf.new (taker_of (P.meaning self.old.port) self.old) (taker_of (P.meaning self.new.port) self.new) result }
        ensures addresses { addresses_of self.new.peers.items ≡ addresses_of self.old.peers.items }
    {
        match self.received.next(buf) {
            Some(got) => Ok(Some(got)),
            None => self.take_packet(buf),
        }
    }

    /// Receives a packet, and returns its datagram if it is one, or `Nothing` if none has arrived.
    fn take_packet(&mut self, buf: &mut [u8]) -> Result<Option<Recv>, Failed>
        requires { NoneLeft self.old.received.unpacking }
        ensures within { IfOk result (λ got. IfSome got (IsWithin (length buf.old))) }
        ensures given { IfOk result (λ got. IfSome got (IsOf (unpacked (P.gives self.old.port) self.old.received) buf.new)) }
        ensures rest { NoMore (unpacked (P.gives self.old.port) self.old.received) (unpacked (P.gives self.new.port) self.new.received) }
        ensures sends { NoMore (P.may_send self.old.port) (P.may_send self.new.port) }
        ensures same { self.new ≡ record self.old { port = self.new.port; peers = self.new.peers; room = self.new.room; received = self.new.received } }
        ensures asks { Asks (addresses_of self.old.peers.items) self.old.now (length buf.old) buf.new (taker_of (P.meaning self.old.port) self.old) (taker_of (P.meaning self.new.port) self.new) result }
        ensures addresses { addresses_of self.new.peers.items ≡ addresses_of self.old.peers.items }
    {
        match self.recv_below()? {
            Recv::Nothing => Ok(Some(Recv::Nothing)),
            Recv::Datagram { from, len } => Ok(self.open(from, len, buf)),
        }
    }

    /// Receives a packet into `room`.
    fn recv_below(&mut self) -> Result<Recv, Failed>
        ensures given { IfOk result (IsOf (P.gives self.old.port) self.new.room.items) }
        ensures rest { NoMore (P.gives self.old.port) (P.gives self.new.port) }
        ensures sends { NoMore (P.may_send self.old.port) (P.may_send self.new.port) }
        ensures received { self.new.received ≡ self.old.received }
        ensures same { self.new ≡ record self.old { port = self.new.port; room = self.new.room } }
        ensures receives { Receives (P.meaning self.old.port) (P.meaning self.new.port) self.old.room.items self.new.room.items result }
        ensures within { IfOk result (IsWithin (length self.new.room.items)) }
    {
        self.prepare();
        self.port.recv(&mut self.room)
    }

    /// Asks that the port below does not wait, if this one must not.
    fn prepare(&mut self)
        ensures rest { NoMore (P.gives self.old.port) (P.gives self.new.port) }
        ensures sends { NoMore (P.may_send self.old.port) (P.may_send self.new.port) }
        ensures same { self.new ≡ record self.old { port = self.new.port } }
        ensures meaning { P.meaning self.new.port ≡ P.meaning self.old.port }
    {
        if self.is_soon {
            self.port.poll_soon();
        }
    }

    /// Counts a receive that gave nothing, or failed.
    fn count(&mut self, got: &Result<Recv, Failed>)
        ensures later { self.old.faults ≤ self.new.faults }
        ensures failed { OnErr got.now (Rose self.old.faults self.new.faults) }
        ensures no_fault { OnOk got.now (self.new.faults ≡ self.old.faults) }
        ensures empties { IfOk got.now (CountsEmpty self.old.empties self.new.empties) }
        ensures not_empty { OnErr got.now (self.new.empties ≡ self.old.empties) }
        ensures same { self.new ≡ record self.old { faults = self.new.faults; empties = self.new.empties } }
    {
        match got {
            Ok(Recv::Datagram { .. }) => {}
            Ok(Recv::Nothing) => raise(&mut self.empties),
            Err(Failed) => raise(&mut self.faults),
        }
    }

    /// Opens a received packet, and returns its datagram if it is one. A bundle is taken apart by the next receives. A
    /// packet of several datagrams or of a part of one is taken from peers alone.
    fn open(&mut self, from: u64, len: usize, buf: &mut [u8]) -> Option<Recv>
        requires { len ≤ length self.old.room.items }
        ensures packed { result ≡ None → is_packed (take len self.old.room.items) ≡ true }
        ensures opened { result ≡ None → IsOpenedOf (addresses_of self.old.peers.items) from self.old.now (take len self.old.room.items) self.old.received self.new.received }
        ensures some { IfSome result IsDatagram }
        ensures goes { IfSome result (IsAsItIs from (take len self.old.room.items) (length buf.old) buf.new) }
        ensures addresses { addresses_of self.new.peers.items ≡ addresses_of self.old.peers.items }
        ensures within { IfSome result (IsWithin (length buf.old)) }
        ensures given { IfSome result (IsOf (unpacked (Only from (take len self.old.room.items)) self.old.received) buf.new) }
        ensures opens { Opens from (take len self.old.room.items) self.old.received self.new.received }
        ensures port { self.new.port ≡ self.old.port }
        ensures same { self.new ≡ record self.old { peers = self.new.peers; received = self.new.received } }
    {
        let packet = front(self.room.as_slice(), len);
        if !is_packed(packet) {
            return Some(hand_up(from, packet, buf));
        }
        if !note_heard(&mut self.peers, from, self.now) {
            return None;
        }
        self.received.take(from, self.now, packet, buf)
    }

    /// Returns whether the receiver reads packets with the byte 20.
    fn speaks(&self, to: u64) -> bool
        ensures { result ≡ true → Speaks to self.entry.now.now self.entry.now.peers.items }
    {
        self.peers
            .iter()
            .any(|peer| peer.address == to && peer.speaks(self.now))
    }

    /// Sends a datagram, or lets it wait for others to its address. No datagram begins with the byte 20.
    fn pass_on(&mut self, to: u64, bytes: &[u8]) -> Result<(), Failed>
        ensures gives { NoMore (P.gives self.old.port) (P.gives self.new.port) }
        ensures sends { OneMore to bytes.now (sent_with (P.may_send self.old.port) (packets_of self.old.waiting)) (sent_with (P.may_send self.new.port) (packets_of self.new.waiting)) }
        ensures received { self.new.received ≡ self.old.received }
        ensures same { self.new ≡ record self.old { port = self.new.port; peers = self.new.peers; waiting = self.new.waiting; packet = self.new.packet; roomy = self.new.roomy } }
        ensures goes { OnOk result (IsPassedOn to bytes.now (sender_of (P.meaning self.old.port) self.old) (sender_of (P.meaning self.new.port) self.new)) }
        ensures refused { OnErr result (IsRefused bytes.now (sender_of (P.meaning self.old.port) self.old) (sender_of (P.meaning self.new.port) self.new)) }
        ensures peers { SamePeers self.old.peers.items self.new.peers.items }
    {
        if is_packed(bytes) {
            return Err(Failed);
        }
        if !self.speaks(to) {
            return self.port.send(to, bytes);
        }
        if bytes.len() > MOST_BYTES {
            return self.send_fragments(to, bytes);
        }
        self.keep(to, bytes)
    }

    /// Lets a datagram wait for others to its address. If memory runs out it is sent at once.
    fn keep(&mut self, to: u64, bytes: &[u8]) -> Result<(), Failed>
        requires { is_packed bytes.now ≡ false }
        ensures goes { OnOk result (IsKept to bytes.now (sender_of (P.meaning self.old.port) self.old) (sender_of (P.meaning self.new.port) self.new)) }
        ensures refused { OnErr result (IsLostBelow (sender_of (P.meaning self.old.port) self.old) (sender_of (P.meaning self.new.port) self.new)) }
        ensures peers { SamePeers self.old.peers.items self.new.peers.items }
        ensures gives { NoMore (P.gives self.old.port) (P.gives self.new.port) }
        ensures sends { OneMore to bytes.now (sent_with (P.may_send self.old.port) (packets_of self.old.waiting)) (sent_with (P.may_send self.new.port) (packets_of self.new.waiting)) }
        ensures same { self.new ≡ record self.old { port = self.new.port; peers = self.new.peers; waiting = self.new.waiting; packet = self.new.packet; roomy = self.new.roomy } }
    {
        self.make_room();
        match self.waiting.add(to, bytes) {
            Ok(()) => Ok(()),
            Err(NoMemory) => self.port.send(to, bytes),
        }
    }

    /// Sends the datagrams that wait, if no more may.
    fn make_room(&mut self)
        ensures goes { MayLetGo (addresses_of self.old.peers.items) (packets_of self.old.waiting) (packets_of self.new.waiting) (P.meaning self.old.port) (P.meaning self.new.port) }
        ensures peers { SamePeers self.old.peers.items self.new.peers.items }
        ensures gives { NoMore (P.gives self.old.port) (P.gives self.new.port) }
        ensures sends { NoMore (sent_with (P.may_send self.old.port) (packets_of self.old.waiting)) (sent_with (P.may_send self.new.port) (packets_of self.new.waiting)) }
        ensures same { self.new ≡ record self.old { port = self.new.port; peers = self.new.peers; waiting = self.new.waiting; packet = self.new.packet; roomy = self.new.roomy } }
    {
        if self.waiting.len() >= MOST_WAITING {
            self.let_go();
        }
    }

    /// Sends a datagram of more than 1,232 bytes as fragments, under its name. `Failed` if it is too long, or one of them
    /// was lost.
    fn send_fragments(&mut self, to: u64, bytes: &[u8]) -> Result<(), Failed>
        requires { 1_232 < length bytes.now }
        ensures goes { OnOk result (SendsCut to bytes.now (name_of bytes.now) (P.meaning self.old.port) (P.meaning self.new.port)) }
        ensures refused { OnErr result (IsRefused bytes.now (sender_of (P.meaning self.old.port) self.old) (sender_of (P.meaning self.new.port) self.new)) }
        ensures gives { NoMore (P.gives self.old.port) (P.gives self.new.port) }
        ensures sends { NoMore (either (P.may_send self.old.port) (fragments_of to bytes.now (name_of bytes.now))) (P.may_send self.new.port) }
        ensures carries { NoMore (carried (P.may_send self.old.port)) (carried (P.may_send self.new.port)) }
        ensures same { self.new ≡ record self.old { port = self.new.port; packet = self.new.packet; roomy = self.new.roomy } }
    {
        send_fragments(to, bytes, name_of(bytes), &mut self.packet, &mut self.port)
    }
}

impl<P: Port, C: Clock> Port for PacketsPort<P, C> {
    ghost use Rattle.crsm_port_packets.specs.Sending.{IsPassedOn, IsRefused, sender_of};
    ghost use Rattle.crsm_port_packets.specs.Traffic.{LetsGoAndAsks, StaysWhenSent, given_over, sent_over};

    ghost meaning = { λ p. unknown p.faults p.losses p.empties };

    ghost gives = { given_over P.gives };

    ghost may_send = { sent_over P.may_send };

    fn recv(&mut self, buf: &mut [u8]) -> Result<Recv, Failed>
        ensures receives { Receives (unknown self.old.faults self.old.losses self.old.empties) (unknown self.new.faults self.new.losses self.new.empties) buf.old buf.new result }
        ensures hands_up { HandsUpBy (given_over P.gives) (sent_over P.may_send) self.old self.new buf.new result }
        ensures goes { LetsGoAndAsks P.meaning (length buf.old) buf.new self.old self.new result }
        ensures addresses { addresses_of self.new.peers.items ≡ addresses_of self.old.peers.items }
        ensures none { packets_of self.new.waiting ≡ [] }
    {
        self.let_go();
        let got = self.next(buf);
        self.is_soon = false;
        self.count(&got);
        got
    }

    fn send(&mut self, to: u64, bytes: &[u8]) -> Result<(), Failed>
        ensures sends { Sends to bytes.now (unknown self.old.faults self.old.losses self.old.empties) (unknown self.new.faults self.new.losses self.new.empties) result }
        ensures passes_on { PassesOnBy (given_over P.gives) (sent_over P.may_send) self.old self.new to bytes.now }
        ensures goes { OnOk result (IsPassedOn to bytes.now (sender_of (P.meaning self.old.port) self.old) (sender_of (P.meaning self.new.port) self.new)) }
        ensures refused { OnErr result (IsRefused bytes.now (sender_of (P.meaning self.old.port) self.old) (sender_of (P.meaning self.new.port) self.new)) }
        ensures peers { SamePeers self.old.peers.items self.new.peers.items }
        ensures stays { StaysWhenSent self.old self.new }
    {
        match self.pass_on(to, bytes) {
            Ok(()) => Ok(()),
            Err(Failed) => {
                raise(&mut self.losses);
                Err(Failed)
            }
        }
    }

    fn reserve(&mut self, sends: u64, bytes: u64) -> Result<(), NoMemory>
        ensures reserves { Reserves sends bytes (unknown self.old.faults self.old.losses self.old.empties) (unknown self.new.faults self.new.losses self.new.empties) result }
        ensures rests { RestsBy (given_over P.gives) (sent_over P.may_send) self.old self.new }
        ensures below { Reserves sends bytes (P.meaning self.old.port) (P.meaning self.new.port) result }
        ensures reading { Gives (C.readings self.old.clock) (C.readings self.new.clock) self.new.now }
        ensures fragments { self.new.received.fragments.pieces.items ≡ filter (is_recent self.new.now) self.old.received.fragments.pieces.items }
        ensures received { self.new.received ≡ record self.old.received { fragments = self.new.received.fragments } }
        ensures stays { self.new ≡ record self.old { port = self.new.port; clock = self.new.clock; now = self.new.now; received = self.new.received } }
    {
        self.now = self.clock.now();
        self.received.forget_old(self.now);
        self.port.reserve(sends, bytes)
    }

    fn poll_soon(&mut self)
        ensures same { unknown self.new.faults self.new.losses self.new.empties ≡ unknown self.old.faults self.old.losses self.old.empties }
        ensures rests { RestsBy (given_over P.gives) (sent_over P.may_send) self.old self.new }
        ensures soon { self.new ≡ record self.old { is_soon = true } }
    {
        self.is_soon = true;
    }

    fn wait_long(&mut self)
        ensures same { unknown self.new.faults self.new.losses self.new.empties ≡ unknown self.old.faults self.old.losses self.old.empties }
        ensures rests { RestsBy (given_over P.gives) (sent_over P.may_send) self.old self.new }
        ensures stays { self.new ≡ record self.old { port = self.new.port } }
    {
        self.port.wait_long();
    }

    fn flush(&mut self)
        ensures same { unknown self.new.faults self.new.losses self.new.empties ≡ unknown self.old.faults self.old.losses self.old.empties }
        ensures rests { RestsBy (given_over P.gives) (sent_over P.may_send) self.old self.new }
        ensures goes { LetsGoAndGreets (addresses_of self.old.peers.items) (packets_of self.old.waiting) (P.meaning self.old.port) (P.meaning self.new.port) }
        ensures none { packets_of self.new.waiting ≡ [] }
        ensures peers { SamePeers self.old.peers.items self.new.peers.items }
        ensures stays { self.new ≡ record self.old { port = self.new.port; peers = self.new.peers; waiting = self.new.waiting; packet = self.new.packet; roomy = self.new.roomy } }
    {
        self.let_go();
        greet_each(self.peers.as_mut_slice(), self.now, &mut self.port);
        self.port.flush();
    }
}
