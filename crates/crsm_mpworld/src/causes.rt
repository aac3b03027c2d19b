//! The checks whether an event is possible, in the order of their reasons.

ghost use Rattle.std.specs.Prelude.{◌≡◌, ℕ, false, nat_le, nat_lt, IsOk};
ghost use Rattle.std.specs.List.{list_any};
ghost use Rattle.crsm_spec.specs.Acts.{Act, Single as OneStep};
ghost use Rattle.crsm_spec.specs.Paxos as paxos;
ghost use Rattle.crsm_mpspec.specs.Possible as possible;
ghost use Rattle.crsm_mpspec.specs.World as on_paper;
ghost use Rattle.crsm_mpworld.specs.Doing.{act_of, single_of};
ghost use Rattle.crsm_mpworld.specs.Refusing.{Answers, first_met};
ghost use Rattle.crsm_mpworld.specs.Packets.{IsOpen};
ghost use Rattle.crsm_mpworld.specs.World.{Holds, WhereHolds};

use crate::world::MpWorld;
use crsm_base::Members;
use crsm_mpspec::MpBad;
use crsm_schedule::{Event, Single};

/// Returns whether the step is not supported in a world whose messages are values.
#[tactic(auto, unfolding(crate::specs::Doing::single_of, crsm_mpspec::specs::Possible::is_junk))]
fn is_foreign(single: &Single) -> bool
    ensures { result ≡ possible.is_junk (single_of single.now) }
{
    matches!(single, Single::Junk { .. })
}

/// Returns whether the event is not supported: bytes from no replica, a group of deliveries, or a stop at a call of the
/// device.
#[tactic(auto, unfolding(crate::specs::Doing::act_of, crsm_mpspec::specs::Possible::is_not_here))]
fn is_not_here(event: &Event) -> bool
    ensures { result ≡ possible.is_not_here (act_of event.now) }
{
    match event {
        Event::One { single } => is_foreign(single),
        Event::CutLost { single } => is_foreign(single),
        Event::CutKept { single, .. } => is_foreign(single),
        Event::Batch { .. } => true,
        Event::CutLostBatch { .. } => true,
        Event::CutAt { .. } => true,
        _ => false,
    }
}

/// Returns whether one of the members is not below the count.
fn one_is_past(count: u64, members: &[u32]) -> bool
    ensures { result ≡ list_any (nat_le count) members.now }
{
    members.iter().any(|member| count <= u64::from(*member))
}

/// Returns whether `count` members are fewer than a majority of `n` replicas.
fn are_too_few(count: u32, n: u32) -> bool
    ensures { result ≡ nat_lt count (paxos.majority n) }
{
    count < n / 2 + 1
}

impl MpWorld {
    /// Checks that replica `k` exists and is up.
    fn check_up(&self, k: u64) -> Result<(), MpBad>
        ensures { WhereHolds self.now (λ v. Answers result (first_met (possible.causes_at v k))) }
    {
        if self.sites.count() <= k {
            return Err(MpBad::NoSuchReplica);
        }
        if !self.sites.is_up(k) {
            return Err(MpBad::IsDown);
        }
        Ok(())
    }

    /// Returns whether the receiver of a message is down.
    fn is_receiver_down(&self, number: u64) -> bool
        ensures { WhereHolds self.now (λ v. result ≡ possible.is_receiver_down v number) }
    {
        match self.network.receiver(number) {
            Some(to) => !self.sites.is_up(u64::from(to)),
            None => false,
        }
    }

    /// Checks that a message is fresh.
    fn check_fresh(&self, number: u64) -> Result<(), MpBad>
        ensures { WhereHolds self.now (λ v. Answers result (first_met (possible.causes_of v (Act.Lose number)))) }
    {
        if self.network.count() <= number {
            return Err(MpBad::NoSuchDatagram);
        }
        if self.network.is_used(number) {
            return Err(MpBad::Used);
        }
        Ok(())
    }

    /// Checks that a message is fresh, and its receiver is up.
    fn check_go(&self, number: u64) -> Result<(), MpBad>
        ensures { (v : on_paper.World) (t : ℕ) → Holds self.now v → Answers result (first_met (possible.causes_of_single v (OneStep.Go number t))) }
    {
        if self.network.count() <= number {
            return Err(MpBad::NoSuchDatagram);
        }
        if self.network.is_used(number) {
            return Err(MpBad::Used);
        }
        if self.is_receiver_down(number) {
            return Err(MpBad::IsDown);
        }
        Ok(())
    }

    /// Checks that a message was used, and its receiver is up.
    fn check_again(&self, number: u64) -> Result<(), MpBad>
        ensures { (v : on_paper.World) (t : ℕ) → Holds self.now v → Answers result (first_met (possible.causes_of_single v (OneStep.Again number t))) }
    {
        if self.network.count() <= number {
            return Err(MpBad::NoSuchDatagram);
        }
        if !self.network.is_used(number) {
            return Err(MpBad::Fresh);
        }
        if self.is_receiver_down(number) {
            return Err(MpBad::IsDown);
        }
        Ok(())
    }

    /// Checks that a replica can boot.
    fn check_start(&self, k: u64) -> Result<(), MpBad>
        ensures { WhereHolds self.now (λ v. Answers result (first_met (possible.causes_of v (Act.Start k)))) }
    {
        if self.sites.count() <= k {
            return Err(MpBad::NoSuchReplica);
        }
        if self.sites.is_up(k) {
            return Err(MpBad::IsUp);
        }
        Ok(())
    }

    /// Returns whether one of these is not a replica.
    fn lacks_one(&self, members: &[u32]) -> bool
        ensures { WhereHolds self.now (λ v. result ≡ list_any (possible.is_none_of v) members.now) }
    {
        one_is_past(self.sites.count(), members)
    }

    /// Checks that a replica can try to lead, with these members.
    fn check_suspect(&self, k: u64, members: &Members) -> Result<(), MpBad>
        ensures { (v : on_paper.World) (t : ℕ) → Holds self.now v →
            Answers result (first_met (possible.causes_of_single v (OneStep.Suspect k t members.now))) }
    {
        if self.sites.count() <= k {
            return Err(MpBad::NoSuchReplica);
        }
        if self.lacks_one(members.as_slice()) {
            return Err(MpBad::NoSuchReplica);
        }
        if !self.sites.is_up(k) {
            return Err(MpBad::IsDown);
        }
        if are_too_few(members.count(), self.n) {
            return Err(MpBad::TooFew);
        }
        Ok(())
    }

    /// Checks that a step of one replica is possible.
    fn check_single(&self, single: &Single) -> Result<(), MpBad>
        ensures { WhereHolds self.now (λ v. possible.is_junk (single_of single.now) ≡ false →
            Answers result (first_met (possible.causes_of_single v (single_of single.now)))) }
    {
        match single {
            Single::Request { replica, .. } => self.check_up(*replica),
            Single::Go { number, .. } => self.check_go(*number),
            Single::Again { number, .. } => self.check_again(*number),
            Single::Tick { replica, .. } => self.check_up(*replica),
            Single::Suspect {
                replica,
                members,
                ..
            } => self.check_suspect(*replica, members),
            Single::Junk { .. } => Err(MpBad::NotHere),
        }
    }

    /// Checks that an event is possible in a world that is not full.
    fn check_event(&self, event: &Event) -> Result<(), MpBad>
        ensures { WhereHolds self.now (λ v. possible.is_not_here (act_of event.now) ≡ false →
            Answers result (first_met (possible.causes_of v (act_of event.now)))) }
    {
        match event {
            Event::One { single } => self.check_single(single),
            Event::Lose { number } => self.check_fresh(*number),
            Event::Crash { replica } => self.check_up(*replica),
            Event::Start { replica } => self.check_start(*replica),
            Event::Settle { .. } => Ok(()),
            Event::CutLost { single } => self.check_single(single),
            Event::CutKept { single, .. } => self.check_single(single),
            Event::Batch { .. } => Err(MpBad::NotHere),
            Event::CutLostBatch { .. } => Err(MpBad::NotHere),
            Event::CutAt { .. } => Err(MpBad::NotHere),
        }
    }

    /// Checks that an event is possible. The error is the first reason why it is not.
    pub(crate) fn check(&self, event: &Event) -> Result<(), MpBad>
        ensures room { IsOk result → IsOpen self.now.network }
        ensures cause { WhereHolds self.now (λ v. Answers result (possible.possible v (act_of event.now))) }
    {
        if is_not_here(event) {
            return Err(MpBad::NotHere);
        }
        if self.network.is_full() {
            return Err(MpBad::Full {
                bytes: self.network.bytes(),
            });
        }
        self.check_event(event)
    }
}
