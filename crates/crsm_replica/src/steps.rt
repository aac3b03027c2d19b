//! The beginning and end of a boot and of a step.

ghost use Rattle.std.specs.Prelude.{◌≡◌, ◌<◌, ◌≤◌, ℕ, List, IfOk};
ghost use Rattle.std.specs.List.{AllByRecursion};
ghost use Rattle.crsm_base.specs.Records.{FitsRec};
ghost use Rattle.crsm_ledger.specs.Ledger.{LedgerStands};
ghost use Rattle.crsm_replica_output.specs.Made.{made_of, IsBatchOf};
ghost use Rattle.crsm_replica_epoch.specs.EpochState.{EachFits};
ghost use Rattle.crsm_spec.specs.Clock.{u64_max};
ghost use Rattle.crsm_spec.specs.Types.{Rec};
ghost use Rattle.crsm_spec.specs.Log.{boots};
ghost use Rattle.crsm_spec.specs.Draft.{Draft, begun};
ghost use Rattle.crsm_spec.specs.Step.{boot, boot_again};
ghost use Rattle.crsm_replica.specs.Replica.{ReplicaStands, AwaitsBoot, CanBoot, WhereStands};

use crate::epochs::forget;
use crate::gathered::Gathered;
use crate::records::put;
use crate::state::ReplicaState;
use crsm_base::{MAX_REPLICAS, NoMemory, Rec};
use crsm_ledger::Ledger;
use crsm_replica_coordinator::Coordinator;
use crsm_replica_epoch::EpochState;
use crsm_replica_output::{Batch, Output};

impl ReplicaState {
    #[tactic(auto, unfolding(crate::specs::Replica::AwaitsBoot))]
    /// Returns the state of a ledger, before its boot is recorded. `NoMemory` if memory runs out.
    pub fn new(ledger: Ledger) -> Result<ReplicaState, NoMemory>
        ensures { IfOk result (λ state. (me n : ℕ) (log : List Rec) → LedgerStands me n ledger log → EachFits me n log → AllByRecursion FitsRec log →
            me < 15 → 1 ≤ n → AwaitsBoot state me n log) }
    {
        let alloc = ledger.alloc();
        let me = ledger.me();
        let Ok(gathered) = Gathered::new(alloc) else {
            drop(ledger);
            return Err(NoMemory);
        };
        Ok(ReplicaState {
            alloc,
            me,
            ledger,
            epoch_state: EpochState::new(alloc),
            gathered,
            coordinator: Coordinator::quiet(),
            made: 0,
            waiting: Vec::new(alloc),
            output: Output::new(alloc),
        })
    }

    #[tactic(auto, unfolding(crate::specs::Replica::ReplicaStands))]
    /// Records the boot. The first boot of a replica that began the cluster enters epoch 0. `NoMemory` if memory runs
    /// out.
    pub fn begin(&mut self) -> Result<(), NoMemory>
        requires { ∥ CanBoot self.old ∥₁ }
        ensures { IfOk result (λ _. (me n : ℕ) (log : List Rec) → AwaitsBoot self.old me n log → boots log < u64_max → ReplicaStands self.new (boot me n log)) }
    {
        let is_founding = self.ledger.boot() == 0 && self.me < self.ledger.n();
        self.boot_again()?;
        if is_founding {
            self.enter()?;
        }
        Ok(())
    }

    #[tactic(auto, unfolding(crate::specs::Replica::ReplicaStands))]
    /// Returns the output of the step, and begins the next one. `NoMemory` if memory runs out.
    pub fn take_batch(&mut self) -> Result<Batch, NoMemory>
        ensures { IfOk result (λ batch. WhereStands self.old (λ x. IsBatchOf batch (made_of x) × ReplicaStands self.new (begun x.replica))) }
    {
        let batch = self.output.take()?;
        Ok(batch)
    }

    /// Records the boot.
    #[tactic(auto, unfolding(crate::specs::Replica::ReplicaStands, crate::specs::Replica::AwaitsBoot))]
    fn boot_again(&mut self) -> Result<(), NoMemory>
        requires { ∥ CanBoot self.old ∥₁ }
        ensures { IfOk result (λ _. (me n : ℕ) (log : List Rec) → AwaitsBoot self.old me n log → boots log < u64_max → ReplicaStands self.new (boot_again me n log)) }
    {
        let me = self.me.min(MAX_REPLICAS - 1);
        let n = self.ledger.n().min(MAX_REPLICAS);
        let rec = Rec::Boot { me, n };
        let fit = put(&mut self.ledger, &mut self.output, rec)?;
        if !fit {
            // The log can count one more boot.
            unreachable!();
        }
        forget(self.alloc, &mut self.epoch_state);
        Ok(())
    }
}
