//! Injected failures: calls of a device in memory that fail by their number.

ghost use Rattle.std.specs.Prelude.{◌≡◌, ◌+◌, ◌<◌, ◌^◌, ◌↔◌, Contains, IsTrue, IfOk, Some};
ghost use Rattle.std.specs.Bool.{OnTrue, OnFalse};
ghost use Rattle.crsm_port_faults.specs.Counts.{raised};
ghost use Rattle.crsm_port_faults.specs.Failing.{IsListed, IsNotEnd, good_of, one_less, until_listed};

use crsm_base::NoMemory;
use std::alloc::Global;
use std::marker::Model;

/// The number of calls made, and the numbers, from 1, of the calls that fail.
#[derive(Drop)]
pub struct Failures {
    calls: u64,
    listed: Vec<u64>,
}

impl Model for Failures {
    ghost use Rattle.crsm_port_faults.specs.Failing.{Failing};

    ghost Value = { Failing };

    ghost view = { λ f. record { calls = f.calls; listed = f.listed.items } };
}

impl Failures {
    /// Returns a record without calls, in which the calls with these numbers, from 1, are to fail.
    pub fn new(alloc: Global, listed: &[u64]) -> Result<Failures, NoMemory>
        ensures { IfOk result (λ f. f ≡ record { calls = 0; listed = listed.now }) }
    {
        let listed = Vec::from_slice(alloc, listed)?;
        Ok(Failures { calls: 0, listed })
    }

    /// Returns the number of calls made.
    pub fn calls(&self) -> u64
        ensures { result ≡ self.now.calls }
    {
        self.calls
    }

    /// Counts a call, and returns whether it is to fail.
    pub fn next_fails(&mut self) -> bool
        ensures counted { self.new ≡ record self.old { calls = raised self.old.calls } }
        ensures listed { IsTrue result ↔ IsListed self.old.listed (self.old.calls + 1) }
        ensures well { OnFalse result ((good_of self.new ≡ one_less (good_of self.old)) × IsNotEnd (good_of self.old)) }
        ensures ill { OnTrue result (good_of self.old ≡ Some 0) }
    {
        is_next_listed(&mut self.calls, &self.listed)
    }
}

// After u64::MAX calls the counter stays as it is, and no further call fails.
fn is_next_listed(calls: &mut u64, listed: &[u64]) -> bool
    ensures counted { calls.new ≡ raised calls.old }
    ensures listed { IsTrue result ↔ IsListed listed.now (calls.old + 1) }
    ensures well { OnFalse result ((until_listed listed.now calls.new ≡ one_less (until_listed listed.now calls.old)) × IsNotEnd (until_listed listed.now calls.old)) }
    ensures ill { OnTrue result (until_listed listed.now calls.old ≡ Some 0) }
{
    if *calls == u64::MAX {
        return false;
    }
    *calls += 1;
    listed.contains(calls)
}
