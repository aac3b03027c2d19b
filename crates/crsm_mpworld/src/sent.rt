//! The messages sent. Each is kept once, however many receivers it has.

ghost use Rattle.std.specs.Prelude.{◌≡◌, ◌++◌, ◌∷◌, [], false, None, Some, IsSome, IfSome, MatchOption, OnOk, length, slice_get};
ghost use Rattle.crsm_mpreplica.specs.Fitting.{FitsInput, FitsMessage};
ghost use Rattle.crsm_mpworld.specs.Sent.{marked, message_from, nothing_sent};
ghost use Rattle.crsm_mpworld.specs.Views.{viewed};

use crsm_base::NoMemory;
use crsm_mpspec::{MpInput, MpMessage};
use std::alloc::Global;
use std::marker::Model;

/// A message with its sender.
#[derive(Drop)]
pub(crate) struct Message {
    pub(crate) from: u32,
    /// The input of its receivers.
    pub(crate) input: MpInput,
}

/// A message on its way to one receiver.
#[derive(Clone, Copy)]
pub(crate) struct Packet {
    /// The index of the message.
    pub(crate) message: usize,
    pub(crate) to: u32,
    /// Whether it was delivered or lost.
    pub(crate) is_used: bool,
}

/// A view of a packet with its message.
#[derive(Clone, Copy)]
pub(crate) struct PacketView<'a> {
    pub(crate) from: u32,
    pub(crate) to: u32,
    /// The input of its receiver.
    pub(crate) input: &'a MpInput,
    /// Whether it was delivered or lost.
    pub(crate) is_used: bool,
}

/// The packets by number, and their messages.
pub(crate) struct Packets {
    messages: Vec<Message>,
    packets: Vec<Packet>,
}

// Written by hand, it is one call wherever a network is dropped; derived, it would be proved at each.
impl Drop for Packets {
    fn drop(self) {
        let Packets {
            messages: _,
            packets: _,
        } = self;
    }
}

impl Model for Packets {
    ghost use Rattle.crsm_mpworld.specs.Sent.{AreKept, Sent, sent_of};

    ghost Value = { Sent };

    ghost view = { λ s. sent_of s.messages.items s.packets.items };

    ghost invariant = { λ s. AreKept s.messages.items s.packets.items };
}

impl Packets {
    /// Returns the empty list.
    pub(crate) fn new(alloc: Global) -> Packets
        ensures { result ≡ nothing_sent }
    {
        Packets {
            messages: Vec::new(alloc),
            packets: Vec::new(alloc),
        }
    }

    /// Returns the number of packets.
    pub(crate) fn len(&self) -> u64
        ensures { result ≡ length self.now.packets }
    {
        self.packets.len() as u64
    }

    /// Returns the packet with this number, or `None` if there are not that many.
    pub(crate) fn get(&self, number: u64) -> Option<PacketView<'_>>
        ensures at { MatchOption result (slice_get self.now.packets number ≡ None) (λ m. slice_get self.now.packets number ≡ Some (viewed m)) }
        ensures fits { IfSome result (λ m. FitsInput m.input.now) }
    {
        match self.packets.get(number as usize) {
            Some(packet) => {
                let message = &self.messages[packet.message];
                Some(PacketView {
                    from: message.from,
                    to: packet.to,
                    input: &message.input,
                    is_used: packet.is_used,
                })
            }
            None => None,
        }
    }

    /// Marks the packet with this number as used.
    pub(crate) fn use_up(&mut self, number: u64)
        ensures packets { self.new.packets ≡ marked number self.old.packets }
        ensures last { self.new.last ≡ self.old.last }
    {
        if number < self.packets.len() as u64 {
            let packet = &mut self.packets[number as usize];
            packet.is_used = true;
        }
    }

    /// Keeps a message from replica `from`, which `append` sends until the next one is kept.
    pub(crate) fn keep(&mut self, from: u32, message: MpMessage) -> Result<(), NoMemory>
        requires { FitsMessage message }
        ensures packets { self.new.packets ≡ self.old.packets }
        ensures last { OnOk result (self.new.last ≡ Some (message_from from message)) }
    {
        let input = MpInput::Message { message };
        self.messages.push(Message { from, input })?;
        Ok(())
    }

    /// Appends a packet with the message that was kept last.
    pub(crate) fn append(&mut self, to: u32) -> Result<(), NoMemory>
        requires { IsSome self.old.last }
        ensures packets { OnOk result (self.new.packets ≡ self.old.packets ++ (record { to = to; is_used = false; message = self.old.last }) ∷ []) }
        ensures last { self.new.last ≡ self.old.last }
    {
        self.packets.push(Packet {
            message: self.messages.len() - 1,
            to,
            is_used: false,
        })?;
        Ok(())
    }
}
