//! `StoppingDisk`: a disk that does nothing from some call on.

ghost use Rattle.std.specs.Prelude.{◌≡◌};
ghost use Rattle.crsm_law_killed.specs.Calls.{DiskCall};
ghost use Rattle.crsm_law_killed.specs.Handed.{IsBelow, IsMadeOf};
ghost use Rattle.crsm_law_killed.specs.Stopping.{disk_with};

use crate::calls::{Start, hand_on, takes_one};
use crsm_base::{Failed, NoMemory};
use crsm_disk::Disk;
use std::marker::PhantomData;

/// A disk over another one, which hands on a number of calls. From then on it does nothing, and refuses what may fail.
#[derive(Drop)]
pub struct StoppingDisk<D: Disk, K: Start<D>> {
    inner: D,
    /// How many calls are still handed on.
    left: u64,
    refused: u64,
    /// The offset of the byte that it was asked to renew last, if it did nothing then.
    renewed: Option<u64>,
    start: PhantomData<K>,
    ghost handed: { ∥ IsBelow (DiskCall D.meaning) K.is_first K.calls left refused inner ∥₁ },
}

impl<D: Disk, K: Start<D>> StoppingDisk<D, K> {
    /// Returns a disk that hands on `calls` calls to this one.
    pub fn new(inner: D, calls: u64) -> StoppingDisk<D, K>
        requires first { K.is_first inner }
        requires all { calls ≡ K.calls }
        ensures inner { result.inner ≡ inner }
        ensures refused { result.refused ≡ 0 }
        ensures renewed { result.renewed ≡ None }
    {
        StoppingDisk {
            inner,
            left: calls,
            refused: 0,
            renewed: None,
            start: PhantomData,
        }
    }

    /// Returns the number of calls that it refused.
    pub fn refused(&self) -> u64
        ensures { result ≡ self.now.refused }
    {
        self.refused
    }

    /// Returns the disk below.
    pub fn into_inner(self) -> D
        ensures inner { result ≡ self.inner }
        ensures handed { ∥ IsMadeOf (DiskCall D.meaning) K.is_first K.calls self.refused result ∥₁ }
    {
        self.inner
    }
}

#[tactic(auto, using(crate::proofs::Disks::disk_rules))]
impl<D: Disk, K: Start<D>> Disk for StoppingDisk<D, K> {
    ghost meaning = { λ d. disk_with d.refused d.renewed (D.meaning d.inner) };

    fn len(&mut self) -> Result<u64, Failed> {
        hand_on(&mut self.left, &mut self.refused)?;
        self.inner.len()
    }

    fn read_at(&mut self, at: u64, buf: &mut [u8]) -> Result<usize, Failed> {
        hand_on(&mut self.left, &mut self.refused)?;
        self.inner.read_at(at, buf)
    }

    fn write_at(&mut self, at: u64, bytes: &[u8]) -> Result<(), Failed> {
        hand_on(&mut self.left, &mut self.refused)?;
        self.inner.write_at(at, bytes)
    }

    fn cut(&mut self, len: u64) -> Result<(), Failed> {
        hand_on(&mut self.left, &mut self.refused)?;
        self.inner.cut(len)
    }

    fn sync(&mut self) -> Result<(), Failed> {
        hand_on(&mut self.left, &mut self.refused)?;
        self.inner.sync()
    }

    fn renew(&mut self, at: u64, byte: u8) -> Result<(), Failed> {
        if !takes_one(&mut self.left) {
            self.renewed = Some(at);
            return Ok(());
        }
        self.renewed = None;
        self.inner.renew(at, byte)
    }

    fn reserve(&mut self, calls: u64, bytes: u64) -> Result<(), NoMemory> {
        if !takes_one(&mut self.left) {
            return Ok(());
        }
        self.inner.reserve(calls, bytes)
    }

    fn arm(&mut self, stop: Option<u64>, fill: u8) {
        if !takes_one(&mut self.left) {
            return;
        }
        self.inner.arm(stop, fill)
    }
}
