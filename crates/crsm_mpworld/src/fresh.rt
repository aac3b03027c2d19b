//! The messages that can be delivered. A query costs no more than the messages sent and delivered since the last one,
//! unless other replicas are up now: messages to a replica that stays down are not looked at again.

ghost use Rattle.std.specs.Prelude.{◌≡◌, ◌++◌, ◌∷◌, [], true, filter, IfOk, OnOk};
ghost use Rattle.crsm_mpworld.specs.Packets.{MpNetworkStands, WhereNetwork, is_fresh_for, is_up_among, numbers_of, with_later};

use crate::network::MpNetwork;
use crsm_base::NoMemory;

impl MpNetwork {
    /// Returns whether the message with this number is fresh.
    #[tactic(auto, unfolding(crate::specs::Packets::is_fresh_for))]
    fn is_fresh(&self, number: u64) -> bool
        ensures { WhereNetwork self.now (λ packets bytes. result ≡ is_fresh_for (λ k. true) packets number) }
    {
        match self.get(number) {
            Some(packet) => !packet.is_used,
            None => false,
        }
    }

    /// Adds a number, if its message is still fresh.
    fn add_fresh(&self, number: u64, kept: &mut Vec<u64>) -> Result<(), NoMemory>
        ensures { OnOk result (WhereNetwork self.now (λ packets bytes.
            kept.new.items ≡ kept.old.items ++ filter (is_fresh_for (λ k. true) packets) (number ∷ []))) }
    {
        if self.is_fresh(number) {
            kept.push(number)?;
        }
        Ok(())
    }

    /// Returns the numbers of the messages that are still fresh.
    fn still_fresh(&self) -> Result<Vec<u64>, NoMemory>
        ensures { IfOk result (λ kept. WhereNetwork self.now (λ packets bytes.
            kept.items ≡ filter (is_fresh_for (λ k. true) packets) (with_later self.now.fresh.items self.now.fresh_end packets))) }
    {
        let mut kept = Vec::new(self.alloc);
        for number in &self.fresh {
            self.add_fresh(*number, &mut kept)?;
        }
        for later in self.fresh_end..self.count() {
            self.add_fresh(later, &mut kept)?;
        }
        Ok(kept)
    }

    /// Sets the replicas that are up, and makes all fresh messages candidates again.
    fn turn_to(&mut self, ups: &[bool]) -> Result<(), NoMemory>
        ensures stands { OnOk result (WhereNetwork self.old (λ packets bytes. MpNetworkStands self.new packets bytes)) }
        ensures ups { OnOk result (self.new.ups.items ≡ ups.now) }
    {
        let end = self.count();
        let fresh = self.still_fresh()?;
        self.near = Vec::from_slice(self.alloc, fresh.as_slice())?;
        self.fresh = fresh;
        self.fresh_end = end;
        self.near_end = end;
        self.ups = Vec::from_slice(self.alloc, ups)?;
        Ok(())
    }

    /// Does the same as `turn_to` if other replicas were up before.
    fn see(&mut self, ups: &[bool]) -> Result<(), NoMemory>
        ensures stands { OnOk result (WhereNetwork self.old (λ packets bytes. MpNetworkStands self.new packets bytes)) }
        ensures ups { OnOk result (self.new.ups.items ≡ ups.now) }
    {
        if self.ups.as_slice() == ups {
            return Ok(());
        }
        self.turn_to(ups)?;
        Ok(())
    }

    /// Returns whether the message with this number is fresh, and its receiver was up at the last query.
    #[tactic(auto, unfolding(crate::specs::Packets::is_fresh_for))]
    fn is_due(&self, number: u64) -> bool
        ensures { WhereNetwork self.now (λ packets bytes. result ≡ is_fresh_for (is_up_among self.now.ups.items) packets number) }
    {
        match self.get(number) {
            Some(packet) => !packet.is_used & is_up(self.ups.as_slice(), packet.to),
            None => false,
        }
    }

    /// Adds a number, if its message can be delivered.
    fn add_due(&self, number: u64, due: &mut Vec<u64>) -> Result<(), NoMemory>
        ensures { OnOk result (WhereNetwork self.now (λ packets bytes.
            due.new.items ≡ due.old.items ++ filter (is_fresh_for (is_up_among self.now.ups.items) packets) (number ∷ []))) }
    {
        if self.is_due(number) {
            due.push(number)?;
        }
        Ok(())
    }

    /// Returns the candidates that can be delivered, in the memory of another list.
    fn still_due(&self, memory: Vec<u64>) -> Result<Vec<u64>, NoMemory>
        ensures { IfOk result (λ due. WhereNetwork self.now (λ packets bytes.
            due.items ≡ filter (is_fresh_for (is_up_among self.now.ups.items) packets) (with_later self.now.near.items self.now.near_end packets))) }
    {
        let mut due = memory;
        due.clear();
        for number in &self.near {
            self.add_due(*number, &mut due)?;
        }
        for later in self.near_end..self.count() {
            self.add_due(later, &mut due)?;
        }
        Ok(due)
    }

    /// Returns the numbers of the fresh messages whose receivers are up, in ascending order and in the memory of another
    /// list. `ups` says of each replica whether it is up.
    pub(crate) fn due(&mut self, ups: &[bool], memory: Vec<u64>) -> Result<Vec<u64>, NoMemory>
        ensures stands { OnOk result (WhereNetwork self.old (λ packets bytes. MpNetworkStands self.new packets bytes)) }
        ensures due { IfOk result (λ due. WhereNetwork self.old (λ packets bytes.
            due.items ≡ filter (is_fresh_for (is_up_among ups.now) packets) (numbers_of packets))) }
    {
        self.see(ups)?;
        let end = self.count();
        let due = self.still_due(memory)?;
        self.near.clear();
        self.near.extend_from_slice(due.as_slice())?;
        self.near_end = end;
        Ok(due)
    }
}

/// Returns whether replica `k` is up by `ups`.
#[tactic(auto, unfolding(crate::specs::Packets::is_up_among))]
fn is_up(ups: &[bool], k: u32) -> bool
    ensures { result ≡ is_up_among ups.now k }
{
    match ups.get(k as usize) {
        Some(up) => *up,
        None => false,
    }
}
