//! The datagrams by number, and the state of each.

ghost use Rattle.std.specs.Prelude.{◌≡◌, ◌+◌, [], ℕ, List, nat_le, length, slice_get, Some, None, MatchOption, OnOk};
ghost use Rattle.crsm_base.specs.Limits.{most_world};
ghost use Rattle.crsm_spec.specs.World as on_paper;
ghost use Rattle.crsm_sim_network.specs.Packets.{NetworkStands, IsPacket, IsPacketView, used_up, is_used_at, receiver_of, receiver_or, WhereStands};

use crate::Tally;
use crate::packets::{PacketEntry, PacketView};
use crate::receivers::class_of;
use crsm_base::{Bytes, MAX_WORLD_BYTES, NoMemory};
use std::alloc::Global;

/// All datagrams sent, by number, and the world's size in bytes.
#[derive(Drop)]
pub struct Network {
    pub(crate) alloc: Global,
    pub(crate) packets: Vec<PacketEntry>,
    /// The bytes of all datagrams, joined.
    pub(crate) spelling: Bytes,
    /// The numbers of the fresh datagrams, in ascending order. It may also have used ones.
    pub(crate) fresh: Vec<u64>,
    /// The replicas that were up at the last query of `due`.
    pub(crate) ups: Vec<bool>,
    /// The candidates of the next query, in ascending order: the fresh datagrams whose receivers were up then, and some
    /// others.
    pub(crate) near: Vec<u64>,
    /// The classes of all datagrams, by number.
    pub(crate) tally: Tally,
    /// The bytes of all datagrams sent and of all log bodies together.
    bytes: u64,
}

impl Network {
    /// Returns the network before anything was sent.
    pub fn new(alloc: Global) -> Network
        ensures { NetworkStands result [] 0 }
    {
        Network {
            alloc,
            packets: Vec::new(alloc),
            spelling: Bytes::new(alloc),
            fresh: Vec::new(alloc),
            ups: Vec::new(alloc),
            near: Vec::new(alloc),
            tally: Tally::new(alloc),
            bytes: 0,
        }
    }

    /// Returns the world's size in bytes: of all datagrams sent and all log bodies.
    pub fn bytes(&self) -> u64
        ensures { WhereStands self.now (λ packets bytes. result ≡ bytes) }
    {
        self.bytes
    }

    /// Returns whether the world's size is at `MAX_WORLD_BYTES` or above.
    pub fn is_full(&self) -> bool
        ensures { WhereStands self.now (λ packets bytes. result ≡ nat_le most_world bytes) }
    {
        MAX_WORLD_BYTES <= self.bytes
    }

    /// Returns the number of datagrams sent.
    pub fn count(&self) -> u64
        ensures { WhereStands self.now (λ packets bytes. result ≡ length packets) }
    {
        self.packets.len() as u64
    }

    /// Returns the state of the datagram with this number, or `None` if it was not sent.
    pub(crate) fn find(&self, number: u64) -> Option<&PacketEntry>
        ensures { WhereStands self.now (λ packets bytes.
            MatchOption result (slice_get packets number ≡ None) (λ m. (p : on_paper.Packet) × (slice_get packets number ≡ Some p) × IsPacket self.now.spelling m.now p)) }
    {
        self.packets.get(number as usize)
    }

    /// Returns the datagram with this number, or `None` if it was not sent.
    pub fn packet(&self, number: u64) -> Option<PacketView<'_>>
        ensures { WhereStands self.now (λ packets bytes.
            MatchOption result (slice_get packets number ≡ None) (λ l. (p : on_paper.Packet) × (slice_get packets number ≡ Some p) × IsPacketView l p)) }
    {
        match self.find(number) {
            Some(packet) => self.read(*packet),
            None => None,
        }
    }

    /// Returns a datagram with its bytes, or `None` if the bytes are missing.
    fn read(&self, packet: PacketEntry) -> Option<PacketView<'_>>
        ensures { (p : on_paper.Packet) → IsPacket self.now.spelling packet p → MatchOption result ⊥ (λ l. IsPacketView l p) }
    {
        let bytes = self.spelling.as_slice();
        if packet.start > packet.end || packet.end > bytes.len() {
            return None;
        }
        Some(PacketView {
            from: packet.from,
            to: packet.to,
            bytes: &bytes[packet.start..packet.end],
        })
    }

    /// Returns whether the datagram with this number was delivered or lost.
    #[tactic(auto, unfolding(crate::specs::Packets::is_used_at))]
    pub fn is_used(&self, number: u64) -> bool
        ensures { WhereStands self.now (λ packets bytes. result ≡ is_used_at packets number) }
    {
        match self.find(number) {
            Some(packet) => packet.is_used,
            None => false,
        }
    }

    /// Returns the receiver of the datagram with this number, or `None` if it was not sent.
    #[tactic(auto, unfolding(crate::specs::Packets::receiver_of))]
    pub fn receiver(&self, number: u64) -> Option<u32>
        ensures { WhereStands self.now (λ packets bytes. result ≡ receiver_of packets number) }
    {
        match self.find(number) {
            Some(packet) => Some(packet.to),
            None => None,
        }
    }

    /// Returns the receiver of the datagram with this number, or 0 if it was not sent.
    #[tactic(auto, unfolding(crate::specs::Packets::receiver_or))]
    pub fn receiver_or(&self, number: u64) -> u32
        ensures { WhereStands self.now (λ packets bytes. result ≡ receiver_or packets number) }
    {
        match self.find(number) {
            Some(packet) => packet.to,
            None => 0,
        }
    }

    /// Marks the datagram with this number as used.
    pub fn use_up(&mut self, number: u64)
        ensures { WhereStands self.old (λ packets bytes. NetworkStands self.new (used_up number packets) bytes) }
    {
        if number < self.packets.len() as u64 {
            let packet = &mut self.packets[number as usize];
            packet.is_used = true;
            let class = class_of(packet.to, true);
            self.tally.set(number as usize, class);
        }
    }

    /// Adds `size` bytes of log bodies to the world's size. `NoMemory` if the sum exceeds 2^64 - 1.
    pub fn keep(&mut self, size: u64) -> Result<(), NoMemory>
        ensures { OnOk result (WhereStands self.old (λ packets bytes. NetworkStands self.new packets (bytes + size))) }
    {
        self.bytes = self.bytes.checked_add(size).ok_or(NoMemory)?;
        Ok(())
    }
}
