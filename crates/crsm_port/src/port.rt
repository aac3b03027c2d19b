//! The trait of a datagram port.

ghost use Rattle.std.specs.Prelude.{◌≡◌, Some};
ghost use Rattle.crsm_port.specs.Meaning.{Meaning, Receives, Reserves, Sends};
ghost use Rattle.crsm_port.specs.Passing.{AnyDatagram, Datagrams, HandsUp, PassesOn, Rests};

use crsm_base::{Failed, NoMemory};

/// The result of a receive. The datagram's first `len` bytes are in the buffer; `from` is its address, IPv4 x 65,536 +
/// port.
#[derive(Clone, Copy, Debug, PartialEq, Eq)]
pub enum Recv {
    /// No datagram has arrived.
    Nothing,
    /// A datagram was received.
    Datagram { from: u64, len: usize },
}

/// Sends and receives datagrams. An address is IPv4 x 65,536 + port.
pub trait Port {
    ghost meaning: { Self → Meaning };

    /// The datagrams that a receive may hand up.
    ghost gives: { Self → Datagrams } = { λ _. AnyDatagram };

    /// The datagrams that were sent or may still be.
    ghost may_send: { Self → Datagrams } = { λ _. AnyDatagram };

    /// Receives the next datagram, cut to the length of `buf`. `Nothing` only if the counter of empty receives rose;
    /// `Failed` only if the counter of faults rose.
    fn recv(&mut self, buf: &mut [u8]) -> Result<Recv, Failed>
        ensures receives { Receives (meaning self.old) (meaning self.new) buf.old buf.new result }
        ensures hands_up { HandsUp (gives self.old) (gives self.new) (may_send self.old) (may_send self.new) buf.new result };

    /// Sends a datagram to an address, at once or later. `Failed` only if the counter of losses rose. No port refuses a
    /// datagram of at most 8,183 bytes for its length.
    fn send(&mut self, to: u64, bytes: &[u8]) -> Result<(), Failed>
        ensures sends { Sends to bytes.now (meaning self.old) (meaning self.new) result }
        ensures passes_on { PassesOn (gives self.old) (gives self.new) (may_send self.old) (may_send self.new) to bytes.now };

    /// Reserves memory for `sends` datagrams of `bytes` bytes together, on a port that keeps what it sends. `NoMemory`
    /// if memory runs out.
    fn reserve(&mut self, sends: u64, bytes: u64) -> Result<(), NoMemory>
        ensures reserves { Reserves sends bytes (meaning self.old) (meaning self.new) result }
        ensures rests { Rests (gives self.old) (gives self.new) (may_send self.old) (may_send self.new) };

    /// Asks that the next receive returns at once if no datagram has arrived. Ports that never wait ignore it.
    fn poll_soon(&mut self)
        ensures same { meaning self.new ≡ meaning self.old }
        ensures rests { Rests (gives self.old) (gives self.new) (may_send self.old) (may_send self.new) }
    {}

    /// Asks that the next receive waits longer for a datagram, as nothing else is under way. Ports that never wait ignore
    /// it.
    fn wait_long(&mut self)
        ensures same { meaning self.new ≡ meaning self.old }
        ensures rests { Rests (gives self.old) (gives self.new) (may_send self.old) (may_send self.new) }
    {}

    /// Sends the datagrams that wait for others to the same address, on a port that sends several as one packet. A node
    /// calls it once the datagrams of a group are sent.
    fn flush(&mut self)
        ensures same { meaning self.new ≡ meaning self.old }
        ensures rests { Rests (gives self.old) (gives self.new) (may_send self.old) (may_send self.new) }
    {}
}

impl<P: Port> Port for &mut P {
    ghost meaning = { λ p. record (P.meaning p.now) { borrowed_as = Some p.ghost_name } };

    ghost gives = { λ p. P.gives p.now };

    ghost may_send = { λ p. P.may_send p.now };

    fn recv(&mut self, buf: &mut [u8]) -> Result<Recv, Failed> {
        (**self).recv(buf)
    }

    fn send(&mut self, to: u64, bytes: &[u8]) -> Result<(), Failed> {
        (**self).send(to, bytes)
    }

    fn reserve(&mut self, sends: u64, bytes: u64) -> Result<(), NoMemory> {
        (**self).reserve(sends, bytes)
    }

    fn poll_soon(&mut self) {
        (**self).poll_soon()
    }

    fn wait_long(&mut self) {
        (**self).wait_long()
    }

    fn flush(&mut self) {
        (**self).flush()
    }
}
