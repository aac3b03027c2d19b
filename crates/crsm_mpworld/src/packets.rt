//! Recording of sent messages, and their readers.

ghost use Rattle.std.specs.Prelude.{◌≡◌, ◌+◌, ◌++◌, ◌∷◌, [], false, nat_le, length, slice_get, None, IfSome, MatchOption, OnOk};
ghost use Rattle.crsm_base.specs.Limits.{most_world};
ghost use Rattle.crsm_mpspec.specs.World as on_paper;
ghost use Rattle.crsm_mpreplica.specs.Fitting.{FitsInput, FitsMessage};
ghost use Rattle.crsm_mpworld.specs.Packets.{HasLast, HasRoom, HasSameLast, IsLast, IsOpen, IsPacketAt, MpNetworkStands, WhereLast, WhereNetwork, is_used_at, receiver_of, used_up};

use crate::network::MpNetwork;
use crate::sent::{PacketView, Packets};
use crsm_base::{MAX_WORLD_BYTES, NoMemory};
use crsm_mpspec::MpMessage;
use std::alloc::Global;

impl MpNetwork {
    /// Returns the network before anything was sent.
    pub(crate) fn new(alloc: Global) -> MpNetwork
        ensures { MpNetworkStands result [] 0 }
    {
        MpNetwork {
            alloc,
            sent: Packets::new(alloc),
            fresh: Vec::new(alloc),
            fresh_end: 0,
            ups: Vec::new(alloc),
            near: Vec::new(alloc),
            near_end: 0,
            bytes: 0,
        }
    }

    /// Returns the world's size in bytes: of all log bodies.
    pub(crate) fn bytes(&self) -> u64
        ensures { WhereNetwork self.now (λ packets bytes. result ≡ bytes) }
    {
        self.bytes
    }

    /// Returns whether the world's size is at its limit or above.
    pub(crate) fn is_full(&self) -> bool
        ensures full { WhereNetwork self.now (λ packets bytes. result ≡ nat_le most_world bytes) }
        ensures room { result ≡ false → IsOpen self.now }
    {
        MAX_WORLD_BYTES <= self.bytes
    }

    /// Adds `size` bytes of log bodies to the world's size.
    pub(crate) fn keep(&mut self, size: u64)
        requires { HasRoom self.old size }
        ensures { WhereNetwork self.old (λ packets bytes. MpNetworkStands self.new packets (bytes + size)) }
    {
        self.bytes += size;
    }

    /// Returns the number of messages sent.
    pub(crate) fn count(&self) -> u64
        ensures { WhereNetwork self.now (λ packets bytes. result ≡ length packets) }
    {
        self.sent.len()
    }

    /// Returns the message with this number, or `None` if it was not sent.
    pub(crate) fn get(&self, number: u64) -> Option<PacketView<'_>>
        ensures at { WhereNetwork self.now (λ packets bytes.
            MatchOption result (slice_get packets number ≡ None) (λ m. IsPacketAt packets number m)) }
        ensures fits { IfSome result (λ m. FitsInput m.input.now) }
    {
        self.sent.get(number)
    }

    /// Returns whether the message with this number was delivered or lost.
    #[tactic(auto, unfolding(crate::specs::Packets::is_used_at))]
    pub(crate) fn is_used(&self, number: u64) -> bool
        ensures { WhereNetwork self.now (λ packets bytes. result ≡ is_used_at packets number) }
    {
        match self.get(number) {
            Some(packet) => packet.is_used,
            None => false,
        }
    }

    /// Returns the receiver of the message with this number, or `None` if it was not sent.
    #[tactic(auto, unfolding(crate::specs::Packets::receiver_of))]
    pub(crate) fn receiver(&self, number: u64) -> Option<u32>
        ensures { WhereNetwork self.now (λ packets bytes. result ≡ receiver_of packets number) }
    {
        match self.get(number) {
            Some(packet) => Some(packet.to),
            None => None,
        }
    }

    /// Marks the message with this number as used.
    pub(crate) fn use_up(&mut self, number: u64)
        ensures room { IsOpen self.old → IsOpen self.new }
        ensures used { WhereNetwork self.old (λ packets bytes. MpNetworkStands self.new (used_up number packets) bytes) }
    {
        self.sent.use_up(number);
    }

    /// Keeps a message from replica `from`, which `send` sends until the next one is kept.
    pub(crate) fn hold(&mut self, from: u32, message: MpMessage) -> Result<(), NoMemory>
        requires { FitsMessage message }
        ensures stands { WhereNetwork self.old (λ packets bytes. MpNetworkStands self.new packets bytes) }
        ensures last { OnOk result (IsLast self.new from message) }
    {
        self.sent.keep(from, message)?;
        Ok(())
    }

    /// Sends the message that was kept last to replica `to`.
    pub(crate) fn send(&mut self, to: u32) -> Result<(), NoMemory>
        requires { HasLast self.old }
        ensures sent { OnOk result (WhereLast self.old (λ from message. WhereNetwork self.old (λ packets bytes.
            MpNetworkStands self.new (packets ++ on_paper.packet_of from (to, message) ∷ []) bytes))) }
        ensures last { HasSameLast self.old self.new }
    {
        self.sent.append(to)?;
        Ok(())
    }
}
