//! A source and a sink that never fail.

ghost use Rattle.std.specs.Prelude.{◌≡◌, ℕ, ◌+◌, ◌-◌, ◌^◌, min, Some, None, Ok, length, IfOk};

use crate::memory::copy_prefix;
use crate::streams::{Sink, Source};
use crsm_base::{Failed, NoMemory};
use std::alloc::Global;
use std::marker::Model;

/// A source of given bytes whose reads never fail.
#[derive(Drop)]
pub struct NeverSource {
    bytes: Vec<u8>,
    at: usize,
}

impl Model for NeverSource {
    ghost use Rattle.std.specs.Prelude.{◌≤◌, ℕ, List, drop, vec_len};

    ghost Value = { List ℕ };

    ghost view = { λ s. drop s.at s.bytes.items };

    ghost invariant = { λ s. s.at ≤ vec_len s.bytes };
}

impl NeverSource {
    /// Returns a source of these bytes, or `NoMemory` if memory runs out.
    pub fn new(alloc: Global, bytes: &[u8]) -> Result<NeverSource, NoMemory>
        ensures { IfOk result (λ s. s ≡ bytes.now) }
    {
        let bytes = Vec::from_slice(alloc, bytes)?;
        Ok(NeverSource { bytes, at: 0 })
    }
}

impl Source for NeverSource {
    ghost left = { λ s. Some s };

    ghost faults = { λ _. 0 };

    fn read(&mut self, buf: &mut [u8]) -> Result<usize, Failed> {
        let count = copy_prefix(&self.bytes[self.at..], buf);
        self.at += count;
        Ok(count)
    }
}

/// A sink that discards all bytes written and counts them. Its writes never fail.
#[derive(Drop)]
pub struct NeverSink {
    count: u64,
}

impl Model for NeverSink {
    ghost use Rattle.std.specs.Prelude.{ℕ};

    ghost Value = { ℕ };

    ghost view = { λ s. s.count };
}

impl NeverSink {
    /// Returns a sink with a count of 0.
    pub fn new() -> NeverSink
        ensures { result ≡ 0 }
    {
        NeverSink { count: 0 }
    }

    /// Returns the number of bytes written; it stays at 2^64 - 1.
    pub fn count(&self) -> u64
        ensures { result ≡ self.now }
    {
        self.count
    }
}

impl Sink for NeverSink {
    ghost written = { λ _. None };

    ghost faults = { λ _. 0 };

    fn write(&mut self, piece: &[u8]) -> Result<usize, Failed>
        ensures whole { result ≡ Ok (length piece.now) }
        ensures counted { self.new ≡ min (self.old + length piece.now) (2 ^ 64 - 1) }
    {
        self.count = self.count.saturating_add(piece.len() as u64);
        Ok(piece.len())
    }
}
