//! The queue of outgoing datagrams.

ghost use Rattle.std.specs.Prelude.{◌≡◌, ◌++◌, [], ◌∷◌, length, IfOk, OnOk};
ghost use Rattle.std.specs.List.{AllByRecursion};
ghost use Rattle.crsm_base.specs.Messages.{FitsDatagram, datagram_bytes};
ghost use Rattle.crsm_port.specs.Meaning.{Reserves};
ghost use Rattle.crsm_replica_io.specs.Outgoing.{FitsSend, SendsAll, address_of, bytes_in, sent_packets, packets_for};
ghost use Rattle.crsm_replica_io.specs.Headers.{AreShort, packets_of, size_of};

use crsm_base::{Bytes, Datagram, NoMemory, Send, To};
use crsm_port::Port;
use crsm_wire::put_datagram;
use std::alloc::Global;
use std::marker::Model;

// The address of a datagram, IPv4 x 65,536 + port, and its length in bytes.
#[derive(Clone, Copy)]
pub(crate) struct Header {
    pub(crate) to: u64,
    pub(crate) len: usize,
}

/// A list of datagrams to be sent together, in order. They are encoded when they are added, so that sending needs no
/// memory.
#[derive(Drop)]
pub struct Outbox {
    headers: Vec<Header>,
    // The bytes of the datagrams, joined.
    text: Bytes,
}

impl Model for Outbox {
    ghost use Rattle.std.specs.Prelude.{List};
    ghost use Rattle.crsm_port.specs.Meaning.{Packet};

    ghost Value = { List Packet };

    ghost use Rattle.crsm_replica_io.specs.Headers.{IsKept, packets_of};

    ghost view = { λ o. packets_of o.headers.items o.text };

    ghost invariant = { λ o. IsKept o.headers.items o.text };
}

impl Outbox {
    /// Returns the empty outbox.
    pub fn new(alloc: Global) -> Outbox
        ensures { result ≡ [] }
    {
        Outbox {
            headers: Vec::new(alloc),
            text: Bytes::new(alloc),
        }
    }

    /// Adds the datagrams of a step, each with the address of its receiver; replica `k` has the address `peers[k]`. A
    /// datagram to a replica without an address is left out. `NoMemory` if memory runs out; some of them may then have
    /// been added, or all may have been removed.
    #[tactic(auto, unfolding(crate::specs::Outgoing::packets_for, crate::specs::Outgoing::packet_for))]
    pub fn add(&mut self, sends: &[Send], peers: &[u64]) -> Result<(), NoMemory>
        requires { AllByRecursion FitsSend sends.now }
        ensures { OnOk result (self.new ≡ self.old ++ packets_for peers.now sends.now) }
    {
        for send in sends {
            self.add_one(address(peers, send.to), &send.datagram)?;
        }
        Ok(())
    }

    fn add_one(&mut self, to: Option<u64>, datagram: &Datagram) -> Result<(), NoMemory>
        requires { FitsDatagram datagram.now }
        ensures { OnOk result (self.new ≡ self.old ++ sent_packets to (datagram_bytes datagram.now)) }
    {
        match to {
            Some(to) => self.push(to, datagram),
            None => Ok(()),
        }
    }

    fn push(&mut self, to: u64, datagram: &Datagram) -> Result<(), NoMemory>
        requires { FitsDatagram datagram.now }
        ensures { OnOk result (self.new ≡ self.old ++ (record { address = to; bytes = datagram_bytes datagram.now }) ∷ []) }
    {
        self.headers.reserve(1)?;
        match write(datagram, &mut self.text) {
            Ok(len) => {
                self.headers.push_reserved(Header { to, len });
                Ok(())
            }
            Err(NoMemory) => {
                // A prefix of the datagram may be in the buffer.
                self.headers.clear();
                self.text.clear();
                Err(NoMemory)
            }
        }
    }

    /// Removes all datagrams, and keeps the memory for further ones.
    pub fn clear(&mut self)
        ensures { self.new ≡ [] }
    {
        self.headers.clear();
        self.text.clear();
    }

    /// Reserves memory for them on the port. `NoMemory` if memory runs out.
    pub fn make_room<P: Port>(&self, port: &mut P) -> Result<(), NoMemory>
        ensures { Reserves (length self.now) (bytes_in self.now) (P.meaning port.old) (P.meaning port.new) result }
    {
        let bytes = self.text.as_slice().len() as u64;
        port.reserve(self.headers.len() as u64, bytes)
    }

    /// Sends them all. A datagram that the port fails to send is lost, as any packet may be; none is too long for a port.
    pub fn send_all<P: Port>(&self, port: &mut P)
        ensures { SendsAll self.now (P.meaning port.old) (P.meaning port.new) }
    {
        send_headers(&self.headers, self.text.as_slice(), port);
    }
}

fn address(peers: &[u64], to: To) -> Option<u64>
    ensures { result ≡ address_of peers.now to }
{
    match to {
        To::Replica(k) => peers.get(k as usize).copied(),
        To::Address(address) => Some(address),
    }
}

// Appends the encoding of a datagram, and returns its length in bytes.
fn write(datagram: &Datagram, text: &mut Bytes) -> Result<usize, NoMemory>
    requires { FitsDatagram datagram.now }
    ensures { IfOk result (λ len. (text.new ≡ text.old ++ datagram_bytes datagram.now) × (len ≡ length (datagram_bytes datagram.now))) }
{
    let before = text.as_slice().len();
    put_datagram(datagram, text)?;
    Ok(text.as_slice().len() - before)
}

fn send_headers<P: Port>(headers: &[Header], text: &[u8], port: &mut P)
    requires size { size_of headers.now ≡ length text.now }
    requires short { AreShort headers.now }
    ensures { SendsAll (packets_of headers.now text.now) (P.meaning port.old) (P.meaning port.new) }
{
    let mut rest = text;
    for header in headers {
        let (bytes, behind) = rest.split_at(header.len);
        let _ = port.send(header.to, bytes);
        rest = behind;
    }
}
