//! The changes of epochs, and the coordinator of the next one.

ghost use Rattle.std.specs.Prelude.{◌≡◌, ◌∷◌, ℕ, false, true};
ghost use Rattle.crsm_base.specs.Spelling.{FitsDecision};
ghost use Rattle.crsm_ledger.specs.Ledger.{LedgerStands};
ghost use Rattle.crsm_replica_coordinator.specs.Coordinator.{CoordinatorStands};
ghost use Rattle.crsm_replica_epoch.specs.EpochState.{EpochStands, EachFits, forgotten};
ghost use Rattle.crsm_spec.specs.Fits.{fits};
ghost use Rattle.crsm_spec.specs.Log.{Log, active, decision, known};
ghost use Rattle.crsm_spec.specs.Replica.{Coordinator, Replica};
ghost use Rattle.crsm_spec.specs.Types.{Rec as RecOnPaper};
ghost use Rattle.crsm_spec.specs.Draft.{Draft, noting};
ghost use Rattle.crsm_spec.specs.Coordinate.{enter};
ghost use Rattle.crsm_replica.specs.Replica.{ReplicaStands, AwaitsBoot, Makes, MakesFitting, learnt, WhereStands};

use crate::records::put;
use crate::state::ReplicaState;
use crsm_base::{Decision, NoMemory, Rec};
use crsm_ledger::Ledger;
use crsm_replica_coordinator::Coordinator as CoordinatorInMemory;
use crsm_replica_epoch::EpochState;
use std::alloc::Global;
use std::mem;

impl ReplicaState {
    #[tactic(auto, unfolding(crate::specs::Replica::ReplicaStands))]
    /// Learns a decision, which ends the old epoch and any coordinator. `false` if its record does not fit, `NoMemory`
    /// if memory runs out; with `false` the state is unchanged.
    pub fn learn_decision(&mut self, decision: &Decision) -> Result<bool, NoMemory>
        requires { FitsDecision decision.now }
        ensures { MakesFitting (learnt decision.now) self.old result self.new }
    {
        let rec = Rec::Decide {
            decision: decision.copy(self.alloc)?,
        };
        let fit = put(&mut self.ledger, &mut self.output, rec)?;
        if !fit {
            return Ok(false);
        }
        forget(self.alloc, &mut self.epoch_state);
        drop(mem::replace(&mut self.coordinator, CoordinatorInMemory::quiet()));
        Ok(true)
    }

    #[tactic(auto, unfolding(crate::specs::Replica::ReplicaStands))]
    /// Enters the known epoch, if the record of that fits. `NoMemory` if memory runs out.
    pub fn enter(&mut self) -> Result<(), NoMemory>
        ensures { Makes (enter) self.old result self.new }
    {
        let epoch = self.known();
        let rec = Rec::Enter { epoch };
        let fit = put(&mut self.ledger, &mut self.output, rec)?;
        if !fit {
            return Ok(());
        }
        forget(self.alloc, &mut self.epoch_state);
        Ok(())
    }

    #[tactic(auto, unfolding(crate::specs::Replica::ReplicaStands))]
    /// Returns the coordinator.
    pub fn coordinator(&self) -> &CoordinatorInMemory
        ensures { WhereStands self.now (λ x. CoordinatorStands result.now x.replica.me x.replica.n (decision x.replica.log) x.replica.coordinator) }
    {
        &self.coordinator
    }

    #[tactic(auto, unfolding(crate::specs::Replica::ReplicaStands))]
    /// Replaces the coordinator by one that stands for a coordinator of the definitions.
    pub fn set_coordinator(&mut self, coordinator: CoordinatorInMemory)
        ensures { (x : Draft) (m : Coordinator) → ReplicaStands self.old x → CoordinatorStands coordinator x.replica.me x.replica.n (decision x.replica.log) m → ReplicaStands self.new (noting m x) }
    {
        drop(mem::replace(&mut self.coordinator, coordinator));
    }

    #[tactic(auto, unfolding(crate::specs::Replica::ReplicaStands))]
    /// Returns the coordinator and leaves an idle one.
    pub fn take_coordinator(&mut self) -> CoordinatorInMemory
        ensures coordinator { WhereStands self.old (λ x. CoordinatorStands result x.replica.me x.replica.n (decision x.replica.log) x.replica.coordinator) }
        ensures quiet { WhereStands self.old (λ x. ReplicaStands self.new (noting Coordinator.Idle x)) }
    {
        mem::replace(&mut self.coordinator, CoordinatorInMemory::quiet())
    }

    #[tactic(auto, unfolding(crate::specs::Replica::ReplicaStands, crate::specs::Replica::AwaitsBoot))]
    /// Returns the ledger.
    pub fn ledger(&self) -> &Ledger
        ensures before { (me n : ℕ) (log : Log) → AwaitsBoot self.now me n log → LedgerStands me n result.now log }
        ensures stands { WhereStands self.now (λ x. LedgerStands x.replica.me x.replica.n result.now x.replica.log) }
    {
        &self.ledger
    }
}

/// Replaces the state of an epoch by that at the beginning of one.
pub(crate) fn forget(alloc: Global, epoch_state: &mut EpochState)
    ensures inactive { (r : Replica) → EachFits r.me r.n r.log → active r.log ≡ false → EpochStands epoch_state.new (forgotten r) }
    ensures entered { (r : Replica) → EachFits r.me r.n r.log → fits r.me r.n r.log (RecOnPaper.Enter (known r.log)) ≡ true →
        EpochStands epoch_state.new (record (forgotten r) { log = RecOnPaper.Enter (known r.log) ∷ r.log }) }
{
    drop(mem::replace(epoch_state, EpochState::new(alloc)));
}
