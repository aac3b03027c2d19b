//! The checks whether an event is possible, in the order of their reasons.

ghost use Rattle.std.specs.Prelude.{◌≡◌, [], ◌∷◌, ◌==◌, not, true, false, is_some, ℕ, OnOk};
ghost use Rattle.std.specs.List.{list_any};
ghost use Rattle.crsm_sim_network.specs.Packets.{receiver_or};
ghost use Rattle.crsm_spec.specs.Possible as possible;
ghost use Rattle.crsm_spec.specs.World as on_paper;
ghost use Rattle.crsm_spec.specs.Log.{spec};
ghost use Rattle.crsm_base.specs.MessageReading.{datagram_of};
ghost use Rattle.crsm_spec.specs.Acts.{Act, Single as OneStep, Bad as Cause};
ghost use Rattle.crsm_world.specs.Doing.{act_of, single_of};
ghost use Rattle.crsm_world.specs.Machines.{IsNotUpAt};
ghost use Rattle.crsm_world.specs.Refusing.{Answers};
ghost use Rattle.crsm_world.specs.Starting.{IsReady};
ghost use Rattle.crsm_world.specs.World.{Holds, WhereHolds};

use crate::bad::Bad;
use crate::replicas::{are_too_few, is_none, one_is_past};
use crate::world::World;
use crsm_base::Members;
use crsm_schedule::{Event, Single};
use crsm_wire::{WireError, read_datagram};

impl World {
    /// Checks that replica `k` exists and is up.
    fn check_up(&self, k: u64) -> Result<(), Bad>
        ensures { WhereHolds self.now (λ v. Answers result (possible.first_bad (possible.causes_at v k))) }
    {
        if self.sites.count() <= k {
            return Err(Bad::NoSuchReplica);
        }
        if !self.sites.is_up(k) {
            return Err(Bad::IsDown);
        }
        Ok(())
    }

    /// Returns whether the receiver of a datagram is down.
    fn is_receiver_down(&self, number: u64) -> bool
        ensures { WhereHolds self.now (λ v. result ≡ possible.is_receiver_down v number) }
    {
        match self.network.receiver(number) {
            Some(to) => !self.sites.is_up(u64::from(to)),
            None => false,
        }
    }

    /// Checks that a datagram is fresh, and its receiver is up.
    fn check_go(&self, number: u64) -> Result<(), Bad>
        ensures { (v : on_paper.World) (t : ℕ) → Holds self.now v → Answers result (possible.first_bad (possible.causes_of_single v (OneStep.Go number t))) }
    {
        if self.network.count() <= number {
            return Err(Bad::NoSuchDatagram);
        }
        if self.network.is_used(number) {
            return Err(Bad::Used);
        }
        if self.is_receiver_down(number) {
            return Err(Bad::IsDown);
        }
        Ok(())
    }

    /// Checks that a datagram was used, and its receiver is up.
    fn check_again(&self, number: u64) -> Result<(), Bad>
        ensures { (v : on_paper.World) (t : ℕ) → Holds self.now v → Answers result (possible.first_bad (possible.causes_of_single v (OneStep.Again number t))) }
    {
        if self.network.count() <= number {
            return Err(Bad::NoSuchDatagram);
        }
        if !self.network.is_used(number) {
            return Err(Bad::Fresh);
        }
        if self.is_receiver_down(number) {
            return Err(Bad::IsDown);
        }
        Ok(())
    }

    /// Checks that a datagram is fresh.
    fn check_lose(&self, number: u64) -> Result<(), Bad>
        ensures { WhereHolds self.now (λ v. Answers result (possible.first_bad (possible.causes_of v (Act.Lose number)))) }
    {
        if self.network.count() <= number {
            return Err(Bad::NoSuchDatagram);
        }
        if self.network.is_used(number) {
            return Err(Bad::Used);
        }
        Ok(())
    }

    /// Checks that a replica can boot.
    fn check_start(&self, k: u64) -> Result<(), Bad>
        ensures answers { WhereHolds self.now (λ v. Answers result (possible.first_bad (possible.causes_of v (Act.Start k)))) }
        ensures ready { OnOk result (IsNotUpAt self.now.sites k) }
    {
        let count = self.sites.count();
        if is_none(count, k) {
            return Err(Bad::NoSuchReplica);
        }
        if self.sites.is_up(k) {
            return Err(Bad::IsUp);
        }
        Ok(())
    }

    /// Returns whether one of these is not a replica.
    fn lacks_one(&self, members: &[u32]) -> bool
        ensures { WhereHolds self.now (λ v. result ≡ list_any (possible.is_none_of v) members.now) }
    {
        let count = self.sites.count();
        one_is_past(count, members)
    }

    /// Checks that the members, if all of them count in majorities at replica `k`, are at least a majority there.
    fn check_members(&self, k: u64, members: &Members) -> Result<(), Bad>
        ensures { WhereHolds self.now (λ v. on_paper.is_up_at v k ≡ true →
            Answers result (possible.first_bad ((possible.are_too_few (spec v.n (on_paper.log_at v k)) members.now, Cause.TooFew) ∷ []))) }
    {
        let Some(spec) = self.sites.spec(k)? else {
            return Ok(());
        };
        if are_too_few(spec.as_slice(), members.as_slice()) {
            return Err(Bad::TooFew);
        }
        Ok(())
    }

    /// Checks that replicas can be suspected.
    fn check_suspect(&self, k: u64, members: &Members) -> Result<(), Bad>
        ensures { (v : on_paper.World) (t : ℕ) → Holds self.now v → Answers result (possible.first_bad (possible.causes_of_single v (OneStep.Suspect k t members.now))) }
    {
        if self.sites.count() <= k {
            return Err(Bad::NoSuchReplica);
        }
        if self.lacks_one(members.as_slice()) {
            return Err(Bad::NoSuchReplica);
        }
        if !self.sites.is_up(k) {
            return Err(Bad::IsDown);
        }
        self.check_members(k, members)
    }

    /// Checks that bytes from no replica can arrive.
    fn check_junk(&self, k: u64, bytes: &[u8]) -> Result<(), Bad>
        ensures { (v : on_paper.World) (t : ℕ) → Holds self.now v → Answers result (possible.first_bad (possible.causes_of_single v (OneStep.Junk k t bytes.now))) }
    {
        if self.sites.count() <= k {
            return Err(Bad::NoSuchReplica);
        }
        if !self.sites.is_up(k) {
            return Err(Bad::IsDown);
        }
        self.check_bytes(bytes)
    }

    /// Checks that bytes are not the encoding of a datagram.
    fn check_bytes(&self, bytes: &[u8]) -> Result<(), Bad>
        ensures { Answers result (possible.first_bad ((is_some (datagram_of bytes.now), Cause.Forged) ∷ [])) }
    {
        match read_datagram(self.alloc, bytes) {
            Ok(datagram) => {
                drop(datagram);
                Err(Bad::Forged)
            }
            Err(WireError::NotOne) => Ok(()),
            Err(WireError::NoMemory) => Err(Bad::NoMemory),
        }
    }

    /// Checks that a step of one replica is possible.
    fn check_single(&self, single: &Single) -> Result<(), Bad>
        ensures { WhereHolds self.now (λ v. Answers result (possible.first_bad (possible.causes_of_single v (single_of single.now)))) }
    {
        match single {
            Single::Request { replica, .. } => self.check_up(*replica),
            Single::Go { number, .. } => self.check_go(*number),
            Single::Again { number, .. } => self.check_again(*number),
            Single::Tick { replica, .. } => self.check_up(*replica),
            Single::Suspect {
                replica,
                members,
                ..
            } => self.check_suspect(*replica, members),
            Single::Junk { replica, bytes, .. } => self.check_junk(*replica, bytes.as_slice()),
        }
    }

    /// Returns whether one of these was not sent.
    fn lacks_packets(&self, numbers: &[u64]) -> bool
        ensures { WhereHolds self.now (λ v. result ≡ list_any (possible.is_not_sent v) numbers.now) }
    {
        for number in numbers {
            if self.network.count() <= *number {
                return true;
            }
        }
        false
    }

    /// Returns whether one of these is used.
    fn has_used(&self, numbers: &[u64]) -> bool
        ensures { WhereHolds self.now (λ v. result ≡ list_any (possible.is_used v) numbers.now) }
    {
        for number in numbers {
            if self.network.is_used(*number) {
                return true;
            }
        }
        false
    }

    /// Returns whether the receiver of one of these is down.
    fn has_receiver_down(&self, numbers: &[u64]) -> bool
        ensures { WhereHolds self.now (λ v. result ≡ list_any (possible.is_receiver_down v) numbers.now) }
    {
        for number in numbers {
            if self.is_receiver_down(*number) {
                return true;
            }
        }
        false
    }

    /// Returns whether the receivers of these differ.
    fn are_mixed(&self, numbers: &[u64]) -> bool
        ensures { WhereHolds self.now (λ v. list_any (possible.is_not_sent v) numbers.now ≡ false → result ≡ possible.are_mixed (possible.receivers v numbers.now)) }
    {
        match numbers.split_first() {
            Some((first, others)) => self.one_is_for_another(
                self.network.receiver_or(*first),
                others,
            ),
            None => false,
        }
    }

    /// Returns whether one of these has another receiver.
    fn one_is_for_another(&self, to: u32, numbers: &[u64]) -> bool
        ensures { WhereHolds self.now (λ v. result ≡ list_any (λ i. not (receiver_or v.packets i == to)) numbers.now) }
    {
        for number in numbers {
            if self.network.receiver_or(*number) != to {
                return true;
            }
        }
        false
    }

    /// Checks that a joint delivery is possible.
    fn check_batch(&self, numbers: &[u64]) -> Result<(), Bad>
        ensures { WhereHolds self.now (λ v. Answers result (possible.first_bad (possible.causes_of_batch v numbers.now))) }
    {
        if self.lacks_packets(numbers) {
            return Err(Bad::NoSuchDatagram);
        }
        if self.has_used(numbers) {
            return Err(Bad::Used);
        }
        if self.are_mixed(numbers) {
            return Err(Bad::Mixed);
        }
        if self.has_receiver_down(numbers) {
            return Err(Bad::IsDown);
        }
        Ok(())
    }

    /// Checks that an event is possible in a world that is not full.
    fn check_event(&self, event: &Event) -> Result<(), Bad>
        ensures answers { WhereHolds self.now (λ v. Answers result (possible.first_bad (possible.causes_of v (act_of event.now)))) }
        ensures ready { OnOk result (IsReady event.now self.now.sites) }
    {
        match event {
            Event::One { single } => self.check_single(single),
            Event::Lose { number } => self.check_lose(*number),
            Event::Crash { replica } => self.check_up(*replica),
            Event::Start { replica } => self.check_start(*replica),
            Event::Settle { .. } => Ok(()),
            Event::CutLost { single } => self.check_single(single),
            Event::CutKept { single, .. } => self.check_single(single),
            Event::Batch { numbers, .. } => self.check_batch(numbers.as_slice()),
            Event::CutLostBatch { numbers, .. } => self.check_batch(numbers.as_slice()),
            Event::CutAt { single, .. } => self.check_single(single),
        }
    }

    /// Checks that an event is possible. The error is the first reason why it is not.
    pub(crate) fn check(&self, event: &Event) -> Result<(), Bad>
        ensures answers { WhereHolds self.now (λ v. Answers result (possible.possible v (act_of event.now))) }
        ensures ready { OnOk result (IsReady event.now self.now.sites) }
    {
        if self.network.is_full() {
            return Err(Bad::Full {
                bytes: self.network.bytes(),
            });
        }
        self.check_event(event)
    }
}
