//! Events with several deliveries.

ghost use Rattle.std.specs.Prelude.{◌≡◌, ◌<◌, ◌+◌, None, Some, ℕ, List, fold, length, map, slice_get, IfOk, OnOk};
ghost use Rattle.std.specs.List.{AllByRecursion};
ghost use Rattle.crsm_spec.specs.Moments as moments;
ghost use Rattle.crsm_spec.specs.Replica.{Replica};
ghost use Rattle.crsm_spec.specs.World as on_paper;
ghost use Rattle.crsm_world.specs.Machines.{IsNotDownAt};
ghost use Rattle.crsm_world.specs.World.{Holds, Leads, WhereHolds, WhereHeldBeside, WhereHeldUp, WhereSomeUp};
ghost use Rattle.crsm_world.specs.Several.{AreFor, FitsTaken, TakesOne, TookAll, WhereTaken, all_gone, each_gone, number_of};

use crate::ending::Ending;
use crate::outgoing::let_all_out;
use crate::world::World;
use crsm_base::{Lines, NoMemory};
use crsm_sim_machine::{Arrival, Step, machines_pend_nothing};

/// A datagram that was delivered, and the output of its step.
#[derive(Drop)]
pub(crate) struct DeliveredStep {
    number: u64,
    step: Step,
}

impl World {
    /// Delivers these datagrams in order, each as a moment of its own, until the world is full.
    fn deliver_each(&mut self, reading: u64, due: &[u64]) -> Result<Lines, NoMemory>
        ensures { IfOk result (λ lines. WhereHolds self.old (λ v. Leads (each_gone reading due.now v) self.new lines)) }
    {
        let mut lines = self.no_lines();
        for number in due {
            if self.network.is_full() {
                return Ok(lines);
            }
            self.go(Ending::Whole, *number, reading, &mut lines)?;
        }
        Ok(lines)
    }

    /// Delivers all datagrams that are fresh now and whose receivers are up.
    pub(crate) fn settle(&mut self, reading: u64) -> Result<Lines, NoMemory>
        ensures { IfOk result (λ lines. WhereHolds self.old (λ v. Leads (each_gone reading (moments.deliverable v) v) self.new lines)) }
    {
        let ups = self.sites.ups()?;
        let due = self.network.due(&ups)?;
        let lines = self.deliver_each(reading, &due)?;
        Ok(lines)
    }

    /// Delivers a datagram to replica `k`, which is up, in one of the steps that become durable together, and appends
    /// its step. Nothing happens if the datagram was not sent.
    fn take(
        &mut self,
        k: u32,
        number: u64,
        reading: u64,
        taken: &mut Vec<DeliveredStep>,
    ) -> Result<(), NoMemory>
        requires within { k < length self.old.sites.items.items }
        requires up { IsNotDownAt self.old.sites k }
        ensures stands { OnOk result (WhereHeldBeside self.old k (TakesOne k reading number self.new taken.old.items taken.new.items)) }
        ensures spelt { OnOk result (AllByRecursion FitsTaken taken.old.items → AllByRecursion FitsTaken taken.new.items) }
        ensures count { OnOk result (length self.new.sites.items.items ≡ length self.old.sites.items.items) }
        ensures up { OnOk result (IsNotDownAt self.new.sites k) }
    {
        let Some(packet) = self.network.packet(number) else {
            return Ok(());
        };
        let arrival = Arrival::Bytes {
            from: u64::from(packet.from),
            bytes: packet.bytes,
        };
        let step = self.sites.take(k, arrival, reading)?;
        taken.push(DeliveredStep { number, step })?;
        Ok(())
    }

    /// Delivers these datagrams to replica `k`, which is up. Their steps are not durable yet.
    fn take_all(
        &mut self,
        k: u32,
        reading: u64,
        numbers: &[u64],
    ) -> Result<Vec<DeliveredStep>, NoMemory>
        requires within { k < length self.old.sites.items.items }
        requires up { IsNotDownAt self.old.sites k }
        ensures takes { IfOk result (λ taken. WhereHeldUp self.old k (λ v r. AreFor k v.packets numbers.now → TookAll k reading v numbers.now self.new taken.items)) }
        ensures spelt { IfOk result (λ taken. AllByRecursion FitsTaken taken.items) }
        ensures count { OnOk result (length self.new.sites.items.items ≡ length self.old.sites.items.items) }
        ensures up { OnOk result (IsNotDownAt self.new.sites k) }
    {
        machines_pend_nothing();
        let mut taken = Vec::new(self.alloc);
        for number in numbers {
            self.take(k, *number, reading, &mut taken)?;
        }
        Ok(taken)
    }

    /// Sends the output of the durable steps of replica `k`, each step in turn. The port has sent all of it, from index
    /// `first` on.
    fn let_each_out(
        &mut self,
        k: u32,
        taken: Vec<DeliveredStep>,
        first: usize,
    ) -> Result<Lines, NoMemory>
        requires { AllByRecursion FitsTaken taken.items }
        ensures { IfOk result (λ lines. WhereTaken self.old k taken.items first (λ t v. Leads (all_gone t (map number_of taken.items) v) self.new lines)) }
    {
        let mut lines = Lines::new(self.alloc);
        let mut place = first;
        for one in taken {
            let DeliveredStep { number, step } = one;
            self.network.use_up(number);
            let next = let_all_out(
                self.alloc,
                &mut self.network,
                k,
                step,
                self.sites.sent(),
                place,
                &mut lines,
            )?;
            place = next;
        }
        Ok(lines)
    }

    /// Delivers these datagrams to replica `k`, which is up: their steps become durable together.
    fn deliver_to(&mut self, k: u32, reading: u64, numbers: &[u64]) -> Result<Lines, NoMemory>
        requires within { k < length self.old.sites.items.items }
        requires up { IsNotDownAt self.old.sites k }
        ensures { IfOk result (λ lines. WhereHeldUp self.old k (λ v r. AreFor k v.packets numbers.now →
            Leads (all_gone reading numbers.now v) self.new lines)) }
    {
        let taken = self.take_all(k, reading, numbers)?;
        let first = self.sites.flush(k)?;
        let lines = self.let_each_out(k, taken, first)?;
        Ok(lines)
    }

    /// Delivers these datagrams together to their receiver. Nothing happens if it is down.
    pub(crate) fn deliver_together(
        &mut self,
        reading: u64,
        numbers: &[u64],
    ) -> Result<Lines, NoMemory>
        ensures { IfOk result (λ lines. WhereSomeUp self.old (λ v k r. AreFor k v.packets numbers.now →
            Leads (all_gone reading numbers.now v) self.new lines)) }
    {
        let Some((first, _)) = numbers.split_first() else {
            return Ok(Lines::new(self.alloc));
        };
        let Some(to) = self.network.receiver(*first) else {
            return Ok(Lines::new(self.alloc));
        };
        let Some(k) = self.sites.up(u64::from(to)) else {
            return Ok(Lines::new(self.alloc));
        };
        let lines = self.deliver_to(k, reading, numbers)?;
        Ok(lines)
    }

    /// Marks these datagrams as used.
    fn use_up_all(&mut self, numbers: &[u64])
        ensures { WhereHolds self.old (λ v. Holds self.new (fold (λ u j. moments.use_up j u) v numbers.now)) }
    {
        for number in numbers {
            self.network.use_up(*number);
        }
    }

    /// Delivers the first of these datagrams in a step that is lost, and marks the others as used.
    pub(crate) fn lose_together(&mut self, reading: u64, numbers: &[u64]) -> Result<Lines, NoMemory>
        ensures { IfOk result (λ lines. WhereHolds self.old (λ v. Leads (moments.lose_batch reading numbers.now v) self.new lines)) }
    {
        let Some((first, others)) = numbers.split_first() else {
            return Ok(Lines::new(self.alloc));
        };
        self.use_up_all(others);
        let mut lines = Lines::new(self.alloc);
        self.go(Ending::Lost, *first, reading, &mut lines)?;
        Ok(lines)
    }
}
