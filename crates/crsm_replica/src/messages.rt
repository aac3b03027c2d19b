//! Sending of control messages.

ghost use Rattle.std.specs.Prelude.{◌<◌, IfOk, All};
ghost use Rattle.crsm_base.specs.declared.Control.{Control as ControlOnPaper};
ghost use Rattle.crsm_base.specs.Messages.{FitsControl};
ghost use Rattle.crsm_replica_output.specs.Spellings.{IsSpelling, IsSpellingOf};
ghost use Rattle.crsm_spec.specs.Draft.{Draft, send_control, send_to_each, send_to_all, send_decision, send_retrieve};
ghost use Rattle.crsm_replica.specs.Replica.{ReplicaStands, Makes};

use crate::state::ReplicaState;
use crsm_base::{Control, NoMemory};
use crsm_replica_output::{parts_are_spelt, send_parts, spell, spell_decision};

impl ReplicaState {
    #[tactic(auto, unfolding(crate::specs::Replica::ReplicaStands))]
    /// Sends replica `k` the control message with this encoding, unless this boot has used all message numbers.
    /// `NoMemory` if memory runs out.
    fn send_spelt(&mut self, k: u32, spelling: &[u8]) -> Result<(), NoMemory>
        requires below { k < 15 }
        requires spelling { IsSpelling spelling.now }
        ensures { IfOk result (λ _. (x : Draft) (c : ControlOnPaper) → ReplicaStands self.old x → IsSpellingOf spelling.now c → ReplicaStands self.new (send_control c x k)) }
    {
        if self.made == u64::MAX {
            return Ok(());
        }
        parts_are_spelt();
        let boot = self.ledger.boot();
        send_parts(
            self.alloc,
            &mut self.output,
            self.me,
            k,
            boot,
            self.made,
            spelling,
        )?;
        self.made += 1;
        Ok(())
    }

    /// Sends replica `k` a control message, unless this boot has used all message numbers. `NoMemory` if memory runs
    /// out.
    pub fn send_control(&mut self, k: u32, control: &Control) -> Result<(), NoMemory>
        requires to { k < 15 }
        requires spelt { FitsControl control.now }
        ensures { Makes (λ x. send_control control.now x k) self.old result self.new }
    {
        let spelling = spell(self.alloc, control)?;
        self.send_spelt(k, spelling.as_slice())
    }

    /// Sends replica `k` a control message that is not needed any more.
    fn tell(&mut self, k: u32, control: Control) -> Result<(), NoMemory>
        requires to { k < 15 }
        requires spelt { FitsControl control }
        ensures { Makes (λ x. send_control control x k) self.old result self.new }
    {
        let sent = self.send_control(k, &control);
        drop(control);
        sent
    }

    /// Sends a control message to each of these replicas; it is encoded once. `NoMemory` if memory runs out.
    pub fn send_to_each(&mut self, replicas: &[u32], control: &Control) -> Result<(), NoMemory>
        requires to { All (λ k. k < 15) replicas.now }
        requires spelt { FitsControl control.now }
        ensures { Makes (send_to_each replicas.now control.now) self.old result self.new }
    {
        if replicas.is_empty() {
            return Ok(());
        }
        let spelling = spell(self.alloc, control)?;
        for k in replicas {
            self.send_spelt(*k, spelling.as_slice())?;
        }
        Ok(())
    }

    #[tactic(auto, unfolding(crate::specs::Replica::ReplicaStands))]
    /// Sends a control message to each other counted replica. `NoMemory` if memory runs out.
    pub fn send_to_all(&mut self, control: &Control) -> Result<(), NoMemory>
        requires { FitsControl control.now }
        ensures { Makes (send_to_all control.now) self.old result self.new }
    {
        let others = self.others()?;
        self.send_to_each(&others, control)
    }

    #[tactic(auto, unfolding(crate::specs::Replica::ReplicaStands))]
    /// Sends replica `k` the known decision, if there is one. `NoMemory` if memory runs out.
    pub fn send_decision(&mut self, k: u32) -> Result<(), NoMemory>
        requires { k < 15 }
        ensures { Makes (send_decision k) self.old result self.new }
    {
        let known = self.ledger.known();
        if known.epoch == 0 {
            return Ok(());
        }
        let spelling = spell_decision(self.alloc, known)?;
        self.send_spelt(k, spelling.as_slice())
    }

    #[tactic(auto, unfolding(crate::specs::Replica::ReplicaStands))]
    /// Asks replica `k` for the decisions and executed entries that this replica does not have. `NoMemory` if memory
    /// runs out.
    pub fn send_retrieve(&mut self, k: u32) -> Result<(), NoMemory>
        requires { k < 15 }
        ensures { Makes (send_retrieve k) self.old result self.new }
    {
        let known = self.ledger.known().epoch;
        let from = self.ledger.executed_len();
        self.tell(k, Control::Retrieve { known, from })
    }
}
