//! Waiting clients.

ghost use Rattle.std.specs.Prelude.{◌≡◌, ◌∷◌, ◌<◌, true, false, drop, length, IfSome, IfNone};
ghost use Rattle.crsm_mpspec.specs.Draft as drafts;
ghost use Rattle.crsm_mpspec.specs.Log.{executed};
ghost use Rattle.crsm_mpreplica.specs.State.{IsFirstDue, Makes, MpReplicaStands, NoneDue, WhereStands, waiting_of, with_waiting};

use crate::slots::push_slot;
use crate::state::MpReplica;
use crsm_base::NoMemory;
use crsm_mpspec::SharedCommand;

impl MpReplica {
    /// Records that a client waits for its command at a slot. `NoMemory` if memory runs out.
    pub fn await_command(&mut self, slot: u64, command: SharedCommand) -> Result<(), NoMemory>
        ensures { Makes (drafts.await slot command) self.old result self.new }
    {
        push_slot(&mut self.waiting, slot, command)?;
        Ok(())
    }

    /// Returns the number of waiting clients.
    pub fn waiting_len(&self) -> usize
        ensures { WhereStands self.now (λ x. result ≡ length x.replica.waiting) }
    {
        self.waiting.len()
    }

    /// Removes and returns the command of the client that waits at the least slot, with the slot, if that is executed.
    /// `None` changes nothing.
    pub fn next_due(&mut self) -> Option<(u64, SharedCommand)>
        ensures first { IfSome result (λ due. WhereStands self.old (λ x. x.replica.waiting ≡ waiting_of due ∷ drop 1 x.replica.waiting)) }
        ensures executed { IfSome result (λ due. WhereStands self.old (λ x. due.0 < length (executed x.replica.log))) }
        ensures rest { IfSome result (λ due. WhereStands self.old (λ x. MpReplicaStands self.new (with_waiting (drop 1 x.replica.waiting) x))) }
        ensures none { IfNone result (WhereStands self.old (λ x. NoneDue x × MpReplicaStands self.new x)) }
    {
        if !self.is_one_due() {
            return None;
        }
        self.waiting.pop_first()
    }

    /// Returns whether the least slot at which a client waits is executed.
    fn is_one_due(&self) -> bool
        ensures one { result ≡ true → WhereStands self.now IsFirstDue }
        ensures none { result ≡ false → WhereStands self.now NoneDue }
    {
        match self.waiting.first_key_value() {
            Some((slot, _)) => *slot < self.ledger.executed_len(),
            None => false,
        }
    }
}
