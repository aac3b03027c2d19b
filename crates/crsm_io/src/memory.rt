//! A source and a sink in memory with injected failures.

ghost use Rattle.std.specs.Prelude.{◌≡◌, ℕ, ◌-◌, ◌+◌, ◌<◌, ◌≤◌, ◌↔◌, ◌⊎◌, ◌++◌, [], drop, take, max, Some, length, IfOk, IsErr, OnOk, OnErr};
ghost use Rattle.crsm_port_faults.specs.Counts.{Rose};
ghost use Rattle.crsm_io.specs.Streams.{Takes, Puts, AtEnd, prefix_of};
ghost use Rattle.crsm_io.specs.Memory.{NextIsListed, one_later};

use crate::streams::{Sink, Source};
use crsm_base::{Failed, NoMemory};
use crsm_port_faults::{Failures, raise};
use std::alloc::Global;
use std::marker::Model;

/// A source of given bytes, whose reads with the listed numbers, from 1, fail.
#[derive(Drop)]
pub struct MemSource {
    bytes: Vec<u8>,
    at: usize,
    failures: Failures,
    faults: u64,
}

impl Model for MemSource {
    ghost use Rattle.std.specs.Prelude.{◌≤◌, drop, vec_len};
    ghost use Rattle.crsm_io.specs.Memory.{Playback};

    ghost Value = { Playback };

    ghost view = { λ s. record { left = drop s.at s.bytes.items; failing = s.failures; faults = s.faults } };

    ghost invariant = { λ s. s.at ≤ vec_len s.bytes };
}

impl MemSource {
    /// Returns a source of these bytes, whose reads with the numbers in `fails` fail. `NoMemory` if memory runs out.
    pub fn new(alloc: Global, bytes: &[u8], fails: &[u64]) -> Result<MemSource, NoMemory>
        ensures bytes { IfOk result (λ s. s.left ≡ bytes.now) }
        ensures fails { IfOk result (λ s. s.failing ≡ record { calls = 0; listed = fails.now }) }
        ensures faults { IfOk result (λ s. s.faults ≡ 0) }
    {
        let bytes = Vec::from_slice(alloc, bytes)?;
        let failures = Failures::new(alloc, fails)?;
        Ok(MemSource {
            bytes,
            at: 0,
            failures,
            faults: 0,
        })
    }
}

impl Source for MemSource {
    ghost left = { λ s. Some s.left };

    ghost faults = { λ s. s.faults };

    fn read(&mut self, buf: &mut [u8]) -> Result<usize, Failed>
        ensures bound { IfOk result (λ n. n ≤ length buf.new) }
        ensures taken { Takes (Some self.old.left) (Some self.new.left) (prefix_of result buf.new) }
        ensures end { IfOk result (λ n. n ≡ 0 → 0 < length buf.new → AtEnd (Some self.new.left)) }
        ensures later { self.old.faults ≤ self.new.faults }
        ensures rose { OnErr result (Rose self.old.faults self.new.faults) }
        ensures listed { IsErr result ↔ NextIsListed self.old.failing }
        ensures failing { self.new.failing ≡ one_later self.old.failing }
    {
        if self.failures.next_fails() {
            raise(&mut self.faults);
            return Err(Failed);
        }
        let count = copy_prefix(&self.bytes[self.at..], buf);
        self.at += count;
        Ok(count)
    }
}

/// Copies as many of the bytes as fit in the buffer, and returns their number.
pub(crate) fn copy_prefix(bytes: &[u8], buf: &mut [u8]) -> usize
    ensures within { (result ≤ length bytes.now) × (result ≤ length buf.new) }
    ensures copied { bytes.now ≡ take result buf.new ++ drop result bytes.now }
    ensures end { result ≡ 0 → 0 < length buf.new → bytes.now ≡ [] }
{
    let count = bytes.len().min(buf.len());
    buf[..count].copy_from_slice(&bytes[..count]);
    count
}

/// A sink that keeps what was written, up to the reserved room in bytes. A write with a listed number, from 1, fails,
/// and so does one beyond the room.
#[derive(Drop)]
pub struct MemSink {
    bytes: Vec<u8>,
    room: u64,
    failures: Failures,
    faults: u64,
}

impl Model for MemSink {
    ghost use Rattle.std.specs.Prelude.{◌≤◌, ◌+◌, vec_len, vec_capacity};
    ghost use Rattle.crsm_io.specs.Memory.{Recording};

    ghost Value = { Recording };

    ghost view = { λ s. record { written = s.bytes.items; room = s.room; failing = s.failures; faults = s.faults } };

    ghost invariant = { λ s. vec_len s.bytes + s.room ≤ vec_capacity s.bytes };
}

impl MemSink {
    /// Returns a sink without room, whose writes with the numbers in `fails` fail. `NoMemory` if memory runs out.
    pub fn new(alloc: Global, fails: &[u64]) -> Result<MemSink, NoMemory>
        ensures empty { IfOk result (λ s. (s.written ≡ []) × (s.room ≡ 0)) }
        ensures fails { IfOk result (λ s. s.failing ≡ record { calls = 0; listed = fails.now }) }
        ensures faults { IfOk result (λ s. s.faults ≡ 0) }
    {
        let failures = Failures::new(alloc, fails)?;
        Ok(MemSink {
            bytes: Vec::new(alloc),
            room: 0,
            failures,
            faults: 0,
        })
    }

    /// Reserves room for at least `bytes` more bytes. `NoMemory` if memory runs out; the sink is then unchanged.
    pub fn reserve(&mut self, bytes: u64) -> Result<(), NoMemory>
        ensures ok { OnOk result (self.new ≡ record self.old { room = max self.old.room bytes }) }
        ensures err { OnErr result (self.new ≡ self.old) }
    {
        let room = self.room.max(bytes);
        self.bytes.reserve(room as usize)?;
        self.room = room;
        Ok(())
    }

    /// Returns the bytes that were written.
    pub fn as_slice(&self) -> &[u8]
        ensures { result.now ≡ self.now.written }
    {
        self.bytes.as_slice()
    }
}

impl Sink for MemSink {
    ghost written = { λ s. Some s.written };

    ghost faults = { λ s. s.faults };

    fn write(&mut self, piece: &[u8]) -> Result<usize, Failed>
        ensures bound { IfOk result (λ n. n ≤ length piece.now) }
        ensures some { IfOk result (λ n. 0 < length piece.now → 0 < n) }
        ensures put { Puts (Some self.old.written) (Some self.new.written) (prefix_of result piece.now) }
        ensures later { self.old.faults ≤ self.new.faults }
        ensures rose { OnErr result (Rose self.old.faults self.new.faults) }
        ensures refused { IsErr result → NextIsListed self.old.failing ⊎ (self.old.room < length piece.now) }
        ensures listed { NextIsListed self.old.failing → IsErr result }
        ensures full { self.old.room < length piece.now → IsErr result }
        ensures room { IfOk result (λ n. self.new.room + n ≡ self.old.room) }
        ensures same_room { OnErr result (self.new.room ≡ self.old.room) }
        ensures failing { self.new.failing ≡ one_later self.old.failing }
    {
        let length = piece.len() as u64;
        if self.failures.next_fails() || self.room < length {
            raise(&mut self.faults);
            return Err(Failed);
        }
        self.bytes.extend_from_slice(piece).unwrap();
        self.room -= length;
        Ok(piece.len())
    }
}
