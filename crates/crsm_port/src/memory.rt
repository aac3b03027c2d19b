//! A port in memory, which specifies all that it received and sent.

ghost use Rattle.std.specs.Prelude.{◌≡◌, ◌+◌, ◌-◌, ◌≤◌, ℕ, [], ◌∷◌, ◌++◌, length, min, take, drop, IfOk, OnOk, OnErr, Some};
ghost use Rattle.crsm_port_faults.specs.Counts.{raised, Rose};
ghost use Rattle.crsm_port_faults.specs.Failing.{IsNotEnd, good_of, one_less};
ghost use Rattle.crsm_port.specs.Meaning.{CountsEmpty, Takes, plain};
ghost use Rattle.crsm_port.specs.Memory.{meaning_of, traffic_of};
ghost use Rattle.crsm_port.specs.Passing.{Among, Cut};
ghost use Rattle.crsm_port.specs.Sent.{packets_of};

use crate::{Port, Recv, SentPackets};
use crsm_base::{Failed, NoMemory};
use crsm_port_faults::{Failures, raise};
use std::alloc::Global;
use std::marker::Model;

// A datagram to be received.
#[derive(Drop)]
struct QueuedDatagram {
    from: u64,
    bytes: Vec<u8>,
}

/// A port in memory. Its receives return the datagrams that were put in, its sends are kept, and its calls with listed
/// numbers fail.
#[derive(Drop)]
pub struct MemPort {
    alloc: Global,
    arrivals: Vec<QueuedDatagram>,
    next: usize,
    sent: SentPackets,
    failures: Failures,
    faults: u64,
    losses: u64,
    empties: u64,
    room_sends: u64,
    room_bytes: u64,
}

impl Model for MemPort {
    ghost use Rattle.crsm_port.specs.Memory.{Memory};

    ghost Value = { Memory };

    ghost use Rattle.crsm_port.specs.Inside.{memory_of, IsKept};

    ghost view = { memory_of };

    ghost invariant = { IsKept };
}

impl MemPort {
    /// Returns an empty port whose calls with the numbers in `fails`, from 1, fail. `NoMemory` if memory runs out.
    pub fn new(alloc: Global, fails: &[u64]) -> Result<MemPort, NoMemory>
        ensures { IfOk result (λ p. p ≡ record { arrivals = []; next = 0; sent = []; failing = record { calls = 0; listed = fails.now }; faults = 0; losses = 0; empties = 0; room_sends = 0; room_bytes = 0 }) }
    {
        Ok(MemPort {
            alloc,
            arrivals: Vec::new(alloc),
            next: 0,
            sent: SentPackets::new(alloc),
            failures: Failures::new(alloc, fails)?,
            faults: 0,
            losses: 0,
            empties: 0,
            room_sends: 0,
            room_bytes: 0,
        })
    }

    /// Adds a datagram to be received after those that wait. `NoMemory` if memory runs out; the port is then unchanged.
    pub fn put(&mut self, from: u64, bytes: &[u8]) -> Result<(), NoMemory>
        ensures ok { OnOk result (self.new ≡ record self.old { arrivals = self.old.arrivals ++ (record { address = from; bytes = bytes.now }) ∷ [] }) }
        ensures err { OnErr result (self.new ≡ self.old) }
    {
        let bytes = Vec::from_slice(self.alloc, bytes)?;
        self.arrivals.push(QueuedDatagram { from, bytes })?;
        Ok(())
    }

    /// Removes all sent datagrams and keeps their memory for later ones.
    pub fn forget_sent(&mut self)
        ensures { self.new ≡ record self.old { sent = [] } }
    {
        self.sent.clear();
    }

    /// Returns the sent datagrams, the oldest first.
    pub fn sent(&self) -> &SentPackets
        ensures { packets_of result.now ≡ self.now.sent }
    {
        &self.sent
    }
}

impl MemPort {
    // Returns the next waiting datagram, cut to the buffer. If none waits, counts an empty receive.
    fn take(&mut self, buf: &mut [u8]) -> Recv
        ensures arrivals { self.new ≡ record self.old { next = self.new.next; empties = self.new.empties } }
        ensures got { Takes plain (traffic_of self.old) (traffic_of self.new) buf.old buf.new result }
        ensures empties { CountsEmpty self.old.empties self.new.empties result }
    {
        match self.arrivals.get(self.next) {
            None => {
                raise(&mut self.empties);
                Recv::Nothing
            }
            Some(arrival) => {
                let len = copy(&arrival.bytes, buf);
                let from = arrival.from;
                self.next += 1;
                Recv::Datagram { from, len }
            }
        }
    }

    // Keeps a sent datagram. The caller has reserved the room.
    fn keep(&mut self, to: u64, bytes: &[u8])
        requires sends { 1 ≤ self.old.room_sends }
        requires bytes { length bytes.now ≤ self.old.room_bytes }
        ensures { self.new ≡ record self.old {
          sent = self.old.sent ++ (record { address = to; bytes = bytes.now }) ∷ [];
          room_sends = self.old.room_sends - 1;
          room_bytes = self.old.room_bytes - length bytes.now;
        } }
    {
        self.sent.push(to, bytes);
        self.room_sends -= 1;
        self.room_bytes -= bytes.len() as u64;
    }

    // Counts a send that fails or has no room as a loss.
    fn admits(&mut self, len: usize) -> Result<(), Failed>
        ensures same { self.new ≡ record self.old { failing = self.new.failing; losses = self.new.losses } }
        ensures room { OnOk result ((1 ≤ self.old.room_sends) × (len ≤ self.old.room_bytes)) }
        ensures good { OnOk result ((good_of self.new.failing ≡ one_less (good_of self.old.failing)) × IsNotEnd (good_of self.old.failing)) }
        ensures ok { OnOk result (self.new.losses ≡ self.old.losses) }
        ensures err { OnErr result ((self.old.losses ≤ self.new.losses) × Rose self.old.losses self.new.losses
            × (1 ≤ self.old.room_sends → len ≤ self.old.room_bytes → good_of self.old.failing ≡ Some 0)) }
    {
        let fails = self.failures.next_fails();
        if fails || self.room_sends == 0 || len as u64 > self.room_bytes {
            raise(&mut self.losses);
            return Err(Failed);
        }
        Ok(())
    }
}

pub(crate) fn copy(bytes: &[u8], buf: &mut [u8]) -> usize
    ensures len { result ≡ min (length buf.old) (length bytes.now) }
    ensures bytes { buf.new ≡ take result bytes.now ++ drop result buf.old }
{
    let n = buf.len().min(bytes.len());
    buf[..n].copy_from_slice(&bytes[..n]);
    n
}

impl Port for MemPort {
    ghost meaning = { meaning_of };

    ghost gives = { λ p. Cut (Among (traffic_of p).waiting) };

    ghost may_send = { λ p. Among p.sent };

    fn recv(&mut self, buf: &mut [u8]) -> Result<Recv, Failed> {
        if self.failures.next_fails() {
            raise(&mut self.faults);
            return Err(Failed);
        }
        Ok(self.take(buf))
    }

    fn send(&mut self, to: u64, bytes: &[u8]) -> Result<(), Failed> {
        self.admits(bytes.len())?;
        self.keep(to, bytes);
        Ok(())
    }

    fn reserve(&mut self, sends: u64, bytes: u64) -> Result<(), NoMemory> {
        let sends = self.room_sends.max(sends);
        let bytes = self.room_bytes.max(bytes);
        self.sent.reserve(sends as usize, bytes as usize)?;
        self.room_sends = sends;
        self.room_bytes = bytes;
        Ok(())
    }
}
