//! The timers of a node: when it received from others, took a tick and suspected.

ghost use Rattle.std.specs.Prelude.{◌≡◌, ℕ, ◌+◌, ◌≤◌, ◌<◌, ◌↔◌, IsTrue, IfOk, All, filter, nat_le};
ghost use Rattle.std.specs.List.{list_all};
ghost use Rattle.crsm_base.specs.Members.{IsMembers};
ghost use Rattle.crsm_base.specs.Replicas.{has};
ghost use Rattle.crsm_spec.specs.Log.{Log, active, members};
ghost use Rattle.crsm_ledger.specs.Ledger.{LedgerStands, WhereStands};
ghost use Rattle.crsm_replica_detector.specs.Watching.{Times, Watch, begun, further, heard_at};
ghost use Rattle.crsm_replica_detector.specs.Wishing.{Suspects, is_up_to, is_wanted, may_suspect, should_be_members, should_end, tick_is_due, wish_at};

use crsm_base::{Members, MembersError, NoMemory, are_among, is_among, majority_of};
use crsm_ledger::Ledger;
use crsm_replica_io::WantedInput;
use std::alloc::Global;

/// Period of ticks in microseconds.
const TICK: u64 = 10_000;
/// Time in microseconds without a packet from a replica after which it is suspected, and the least time between
/// suspicions.
const SILENCE: u64 = 5_000_000;

/// The newest reading, and the readings at which each other replica was last received from, a tick was last taken and a
/// suspicion was last chosen.
#[derive(Clone, Copy, Debug)]
pub(crate) struct Timers {
    pub(crate) newest: u64,
    pub(crate) heard: [u64; 15],
    pub(crate) ticked: u64,
    pub(crate) suspected: u64,
}

impl Timers {
    ghost use Rattle.crsm_replica_detector.specs.Detector.{AreAlike, TimersStand, times_of};

    /// Returns the timers after a reading, with the replica from which was received, if any.
    pub(crate) fn at(timers: Option<Timers>, reading: u64, from: Option<u32>) -> Timers
        ensures { (w : Watch) → TimersStand timers w → TimersStand (Some result) (heard_at from reading w) }
    {
        match timers {
            None => Timers::begun(reading),
            Some(timers) => timers.further(reading, from),
        }
    }

    /// Returns the timers at the first reading.
    fn begun(reading: u64) -> Timers
        ensures { AreAlike (times_of result) (begun reading) }
    {
        Timers {
            newest: reading,
            heard: [reading; 15],
            ticked: reading,
            suspected: reading,
        }
    }

    /// Returns the timers after a further reading, with the replica from which was received, if any.
    fn further(mut self, reading: u64, from: Option<u32>) -> Timers
        ensures { (t : Times) → AreAlike (times_of self) t → AreAlike (times_of result) (further from reading t) }
    {
        self.newest = reading;
        if let Some(from) = from
            && (from as usize) < self.heard.len()
        {
            self.heard[from as usize] = reading;
        }
        self
    }

    /// Returns the input to take next.
    #[tactic(auto, unfolding(crate::specs::Wishing::wish_at))]
    pub(crate) fn wish(&self, me: u32, ledger: &Ledger) -> Result<WantedInput, NoMemory>
        ensures { (n : ℕ) (log : Log) (t : Times) → LedgerStands me n ledger.now log → AreAlike (times_of self.now) t → IfOk result (λ what. what ≡ wish_at me n t log) }
    {
        if self.tick_is_due() {
            return Ok(WantedInput::Tick);
        }
        match self.suspicion(me, ledger)? {
            Some(members) => Ok(WantedInput::Suspect(members)),
            None => Ok(WantedInput::Receive),
        }
    }

    #[tactic(auto, unfolding(crate::specs::Wishing::tick_is_due))]
    fn tick_is_due(&self) -> bool
        ensures { (t : Times) → AreAlike (times_of self.now) t → result ≡ tick_is_due t }
    {
        has_passed(self.ticked, TICK, self.newest)
    }

    /// Returns the replicas that should remain, if it is time to suspect all others, else `None`.
    #[tactic(auto, unfolding(crate::specs::Wishing::suspects, crate::specs::Wishing::wanted))]
    fn suspicion(&self, me: u32, ledger: &Ledger) -> Result<Option<Members>, NoMemory>
        ensures { (n : ℕ) (log : Log) (t : Times) → LedgerStands me n ledger.now log → AreAlike (times_of self.now) t → IfOk result (Suspects me n t log) }
    {
        let spec = ledger.counted().as_slice();
        if !self.may_suspect(me, spec) {
            return Ok(None);
        }
        let wanted = self.wanted(ledger.alloc(), me, spec)?;
        if !should_be_members(me, ledger, &wanted) {
            return Ok(None);
        }
        let members = members_of(ledger.alloc(), &wanted)?;
        Ok(Some(members))
    }

    #[tactic(auto, unfolding(crate::specs::Wishing::may_suspect))]
    fn may_suspect(&self, me: u32, spec: &[u32]) -> bool
        ensures { (t : Times) → AreAlike (times_of self.now) t → result ≡ may_suspect me spec.now t }
    {
        is_among(spec, me) && has_passed(self.suspected, SILENCE, self.newest)
    }

    /// Returns those of the replicas that should remain.
    fn wanted(&self, alloc: Global, me: u32, spec: &[u32]) -> Result<Vec<u32>, NoMemory>
        requires { All (λ k. k < 15) spec.now }
        ensures { (t : Times) → AreAlike (times_of self.now) t → IfOk result (λ ms. ms.items ≡ filter (is_wanted me t) spec.now) }
    {
        let mut wanted = Vec::new(alloc);
        for k in spec {
            if self.is_wanted(me, *k) {
                wanted.push(*k)?;
            }
        }
        Ok(wanted)
    }

    #[tactic(auto, unfolding(crate::specs::Wishing::is_wanted))]
    fn is_wanted(&self, me: u32, k: u32) -> bool
        requires { k < 15 }
        ensures { (t : Times) → AreAlike (times_of self.now) t → result ≡ is_wanted me t k }
    {
        k == me || !has_passed(self.heard[k as usize], SILENCE, self.newest)
    }
}

/// Returns whether `micros` microseconds, at least 1, have passed since a reading.
fn has_passed(since: u64, micros: u64, reading: u64) -> bool
    requires { 1 ≤ micros }
    ensures { IsTrue result ↔ (since + micros ≤ reading) }
{
    reading.saturating_sub(since) >= micros
}

/// Returns these replicas as members.
fn members_of(alloc: Global, replicas: &[u32]) -> Result<Members, NoMemory>
    requires { IsMembers replicas.now }
    ensures { IfOk result (λ members. members ≡ replicas.now) }
{
    match Members::from_slice(alloc, replicas) {
        Ok(members) => Ok(members),
        Err(MembersError::NoMemory) => Err(NoMemory),
        Err(MembersError::NotAscending) => unreachable!(),
    }
}

/// Returns whether these should be the members of the next epoch.
#[tactic(auto, unfolding(crate::specs::Wishing::should_be_members))]
fn should_be_members(me: u32, ledger: &Ledger, wanted: &[u32]) -> bool
    ensures { WhereStands ledger.now (λ _ n log. result ≡ should_be_members me n log wanted.now) }
{
    let are_majority = majority_of(ledger.counted().as_slice()) <= wanted.len();
    are_majority && should_end(ledger, wanted) && is_up_to(me, ledger, wanted)
}

/// Returns whether the replica takes no part in the known epoch, or a member should not remain.
#[tactic(auto, unfolding(crate::specs::Wishing::should_end))]
fn should_end(ledger: &Ledger, wanted: &[u32]) -> bool
    ensures { WhereStands ledger.now (λ me n log. result ≡ should_end n log wanted.now) }
{
    !is_active(ledger) || !are_members_among(ledger, wanted)
}

#[tactic(auto, unfolding(crsm_spec::specs::Log::active))]
fn is_active(ledger: &Ledger) -> bool
    ensures { WhereStands ledger.now (λ me n log. result ≡ active log) }
{
    ledger.live() && !ledger.suspended()
}

fn are_members_among(ledger: &Ledger, wanted: &[u32]) -> bool
    ensures { WhereStands ledger.now (λ me n log. result ≡ list_all (has wanted.now) (members n log)) }
{
    are_among(ledger.known().members.as_slice(), wanted)
}

/// Returns whether the replica is the least that should remain, or has not entered the known epoch.
#[tactic(auto, unfolding(crate::specs::Wishing::is_up_to))]
fn is_up_to(me: u32, ledger: &Ledger, wanted: &[u32]) -> bool
    ensures { WhereStands ledger.now (λ _ n log. result ≡ is_up_to me log wanted.now) }
{
    !ledger.live() || is_least(me, wanted)
}

fn is_least(me: u32, wanted: &[u32]) -> bool
    ensures { result ≡ list_all (nat_le me) wanted.now }
{
    wanted.iter().all(|k| me <= *k)
}
