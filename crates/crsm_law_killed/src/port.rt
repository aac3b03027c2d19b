//! `StoppingPort`: a port that does nothing from some call on.

ghost use Rattle.std.specs.Prelude.{◌≡◌, ◌+◌};
ghost use Rattle.crsm_law_killed.specs.Calls.{PortCall};
ghost use Rattle.crsm_law_killed.specs.Handed.{IsBelow, IsMadeOf};
ghost use Rattle.crsm_law_killed.specs.Stopping.{port_with};

use crate::calls::{Start, hand_on, takes_one};
use crsm_base::{Failed, NoMemory};
use crsm_port::{Port, Recv};
use std::marker::PhantomData;

/// A port over another one, which hands on a number of calls. From then on it does nothing, and refuses what may fail.
#[derive(Drop)]
pub struct StoppingPort<P: Port, K: Start<P>> {
    inner: P,
    /// How many calls are still handed on.
    left: u64,
    /// How many receives and sends were refused.
    receives: u64,
    sends: u64,
    start: PhantomData<K>,
    ghost handed: { ∥ IsBelow (PortCall P.meaning P.gives P.may_send) K.is_first K.calls left (receives + sends) inner ∥₁ },
}

impl<P: Port, K: Start<P>> StoppingPort<P, K> {
    /// Returns a port that hands on `calls` calls to this one.
    pub fn new(inner: P, calls: u64) -> StoppingPort<P, K>
        requires first { K.is_first inner }
        requires all { calls ≡ K.calls }
        ensures inner { result.inner ≡ inner }
        ensures receives { result.receives ≡ 0 }
        ensures sends { result.sends ≡ 0 }
    {
        StoppingPort {
            inner,
            left: calls,
            receives: 0,
            sends: 0,
            start: PhantomData,
        }
    }

    /// Returns the number of receives that it refused.
    pub fn receives(&self) -> u64
        ensures { result ≡ self.now.receives }
    {
        self.receives
    }

    /// Returns the number of sends that it refused.
    pub fn sends(&self) -> u64
        ensures { result ≡ self.now.sends }
    {
        self.sends
    }

    /// Returns the port below.
    pub fn into_inner(self) -> P
        ensures inner { result ≡ self.inner }
        ensures handed { ∥ IsMadeOf (PortCall P.meaning P.gives P.may_send) K.is_first K.calls (self.receives + self.sends) result ∥₁ }
    {
        self.inner
    }
}

impl<P: Port, K: Start<P>> Port for StoppingPort<P, K> {
    ghost meaning = { λ p. port_with p.receives p.sends (P.meaning p.inner) };

    ghost gives = { λ p. P.gives p.inner };

    ghost may_send = { λ p. P.may_send p.inner };

    fn recv(&mut self, buf: &mut [u8]) -> Result<Recv, Failed> {
        hand_on(&mut self.left, &mut self.receives)?;
        self.inner.recv(buf)
    }

    fn send(&mut self, to: u64, bytes: &[u8]) -> Result<(), Failed> {
        hand_on(&mut self.left, &mut self.sends)?;
        self.inner.send(to, bytes)
    }

    fn reserve(&mut self, sends: u64, bytes: u64) -> Result<(), NoMemory> {
        if !takes_one(&mut self.left) {
            return Ok(());
        }
        self.inner.reserve(sends, bytes)
    }

    fn poll_soon(&mut self) {
        if !takes_one(&mut self.left) {
            return;
        }
        self.inner.poll_soon();
    }

    fn wait_long(&mut self) {
        if !takes_one(&mut self.left) {
            return;
        }
        self.inner.wait_long();
    }

    fn flush(&mut self) {
        if !takes_one(&mut self.left) {
            return;
        }
        self.inner.flush();
    }
}
