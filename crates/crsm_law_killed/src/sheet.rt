//! `StoppingSink`: a sink that does nothing from some call on.

ghost use Rattle.std.specs.Prelude.{◌≡◌, ◌+◌};
ghost use Rattle.crsm_law_killed.specs.Calls.{SinkCall};
ghost use Rattle.crsm_law_killed.specs.Handed.{IsBelow, IsMadeOf};

use crate::calls::{Start, hand_on};
use crsm_base::Failed;
use crsm_io::Sink;
use std::marker::PhantomData;

/// A sink over another one, which hands on a number of calls, and refuses all further ones.
#[derive(Drop)]
pub struct StoppingSink<O: Sink, K: Start<O>> {
    inner: O,
    /// How many calls are still handed on.
    left: u64,
    refused: u64,
    start: PhantomData<K>,
    ghost handed: { ∥ IsBelow (SinkCall O.written O.faults) K.is_first K.calls left refused inner ∥₁ },
}

impl<O: Sink, K: Start<O>> StoppingSink<O, K> {
    /// Returns a sink that hands on `calls` calls to this one.
    pub fn new(inner: O, calls: u64) -> StoppingSink<O, K>
        requires first { K.is_first inner }
        requires all { calls ≡ K.calls }
        ensures inner { result.inner ≡ inner }
        ensures refused { result.refused ≡ 0 }
    {
        StoppingSink {
            inner,
            left: calls,
            refused: 0,
            start: PhantomData,
        }
    }

    /// Returns the number of calls that it refused.
    pub fn refused(&self) -> u64
        ensures { result ≡ self.now.refused }
    {
        self.refused
    }

    /// Returns the sink below.
    pub fn into_inner(self) -> O
        ensures inner { result ≡ self.inner }
        ensures handed { ∥ IsMadeOf (SinkCall O.written O.faults) K.is_first K.calls self.refused result ∥₁ }
    {
        self.inner
    }
}

impl<O: Sink, K: Start<O>> Sink for StoppingSink<O, K> {
    ghost written = { λ s. O.written s.inner };

    ghost faults = { λ s. O.faults s.inner + s.refused };

    fn write(&mut self, piece: &[u8]) -> Result<usize, Failed> {
        hand_on(&mut self.left, &mut self.refused)?;
        self.inner.write(piece)
    }
}
