//! The datagrams that leave a replica.

ghost use Rattle.std.specs.Prelude.{◌≡◌, ◌≤◌, ◌+◌, ◌-◌, ◌++◌, ◌∷◌, [], ℕ, List, length, map, min, IfOk, OnOk};
ghost use Rattle.std.specs.List.{AllByRecursion};
ghost use Rattle.crsm_base.specs.Messages.{FitsDatagram, datagram_bytes};
ghost use Rattle.crsm_spec.specs.World as on_paper;
ghost use Rattle.crsm_spec.specs.World.{packet_of};
ghost use Rattle.crsm_sim_network.specs.Packets.{NetworkStands, FitsPacket, sent_to, sent_of, AreSpelt, WhereSpelt, WhereStands, HasSent};
ghost use Rattle.crsm_port.specs.Sent.{packets_of};

use crate::network::Network;
use crate::packets::PacketEntry;
use crate::receivers::class_of;
use crsm_base::{Bytes, Datagram, Line, Lines, NoMemory, Send, SendKind, To};
use crsm_port::SentPackets;
use std::alloc::Global;

impl Network {
    /// Records a datagram with these bytes from replica `k`, and appends its line.
    fn send(
        &mut self,
        k: u32,
        to: u32,
        datagram: &Datagram,
        text: &[u8],
        lines: &mut Lines,
    ) -> Result<(), NoMemory>
        requires { FitsDatagram datagram.now }
        ensures network { OnOk result (WhereSpelt self.old datagram.now text.now (λ packets bytes.
            NetworkStands self.new (packets ++ packet_of k (to, datagram.now) ∷ []) (bytes + length (datagram_bytes datagram.now)))) }
        ensures lines { OnOk result (WhereSpelt self.old datagram.now text.now (λ packets bytes.
            lines.new ≡ lines.old ++ on_paper.send_line k (length packets) (to, datagram.now) ∷ [])) }
    {
        let index = self.count();
        let start = self.spelling.as_slice().len();
        self.spelling.append(text)?;
        let end = self.spelling.as_slice().len();
        lines.push(Line::Send {
            index,
            from: k,
            to,
            kind: kind_of(datagram),
            bytes: Bytes::from_slice(self.alloc, text)?,
        })?;
        self.fresh.push(index)?;
        self.near.push(index)?;
        self.tally.push(class_of(to, false))?;
        self.packets.push(PacketEntry {
            from: k,
            to,
            start,
            end,
            is_used: false,
        })?;
        self.keep(text.len() as u64)?;
        Ok(())
    }

    /// Records one output of a step, with these bytes, from replica `k`. A reply is not a packet.
    fn send_one(
        &mut self,
        k: u32,
        send: &Send,
        text: &[u8],
        lines: &mut Lines,
    ) -> Result<(), NoMemory>
        requires { FitsPacket send.now }
        ensures network { OnOk result (WhereSpelt self.old send.now.datagram text.now (λ packets bytes.
            HasSent self.new packets bytes k (sent_to send.now))) }
        ensures lines { OnOk result (WhereSpelt self.old send.now.datagram text.now (λ packets bytes.
            lines.new ≡ lines.old ++ on_paper.send_lines k (length packets) (sent_to send.now))) }
    {
        match send.to {
            To::Replica(to) => {
                self.send(k, to, &send.datagram, text, lines)?;
                Ok(())
            }
            To::Address(_) => Ok(()),
        }
    }

    /// Records the output of a step of replica `k` in order, and appends the lines of its packets. A port has sent it:
    /// the bytes are those of the port from index `first` on, and no more is recorded than the port has there. Returns
    /// the index behind them. `NoMemory` if memory runs out.
    pub fn send_all(
        &mut self,
        k: u32,
        sends: &[Send],
        sent: &SentPackets,
        first: usize,
        lines: &mut Lines,
    ) -> Result<usize, NoMemory>
        requires { AllByRecursion FitsPacket sends.now }
        ensures network { OnOk result (WhereStands self.old (λ packets bytes. AreSpelt sends.now (packets_of sent.now) first →
            HasSent self.new packets bytes k (sent_of sends.now))) }
        ensures lines { OnOk result (WhereStands self.old (λ packets bytes. AreSpelt sends.now (packets_of sent.now) first →
            lines.new ≡ lines.old ++ on_paper.send_lines k (length packets) (sent_of sends.now))) }
        ensures exact { IfOk result (λ next. next ≡ first + min (length (packets_of sent.now) - first) (length sends.now)) }
        ensures behind { IfOk result (λ next. AreSpelt sends.now (packets_of sent.now) first → next ≡ first + length sends.now) }
    {
        let there = sent.len().saturating_sub(first);
        let count = there.min(sends.len());
        for (i, send) in sends[..count].iter().enumerate() {
            let Some((_, text)) = sent.get(first + i) else {
                unreachable!();
            };
            self.send_one(k, send, text, lines)?;
        }
        Ok(first + count)
    }
}

/// Returns the kind of a datagram between replicas.
#[tactic(auto, unfolding(crsm_spec::specs::World::kind_of))]
fn kind_of(datagram: &Datagram) -> SendKind
    ensures { result ≡ on_paper.kind_of datagram.now }
{
    match datagram {
        Datagram::Ack { .. } => SendKind::Ack,
        Datagram::Part { .. } => SendKind::Part,
        _ => SendKind::Frame,
    }
}

/// Returns the number of datagrams to replicas in this output: 1 or 0.
#[tactic(auto, unfolding(crate::specs::Packets::sent_to, crate::specs::Packets::to_packets))]
fn packets_of(send: &Send) -> usize
    ensures count { result ≡ length (sent_to send.now) }
    ensures most { result ≤ 1 }
{
    match send.to {
        To::Replica(_) => 1,
        To::Address(_) => 0,
    }
}

/// Returns the number of datagrams to replicas among these.
pub fn packets_in(sends: &[Send]) -> usize
    ensures count { result ≡ length (sent_of sends.now) }
    ensures most { result ≤ length sends.now }
{
    let mut count = 0;
    for send in sends {
        count += packets_of(send);
    }
    count
}
