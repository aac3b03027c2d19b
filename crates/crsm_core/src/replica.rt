//! The replica in memory: its boot and its steps.

ghost use Rattle.std.specs.Prelude.{◌<◌, ◌≤◌, ℕ, IfOk, OnErr, IsErr};
ghost use Rattle.std.specs.List.{AllByRecursion};
ghost use Rattle.crsm_base.specs.Records.{FitsRec};
ghost use Rattle.crsm_ledger.specs.Ledger.{LedgerStands};
ghost use Rattle.crsm_replica_epoch.specs.EpochState.{EachFits};
ghost use Rattle.crsm_spec.specs.Clock.{u64_max};
ghost use Rattle.crsm_spec.specs.Log.{Log, boots};
ghost use Rattle.crsm_spec.specs.Replica.{Replica};
ghost use Rattle.crsm_spec.specs.Step.{boot, step};
ghost use Rattle.crsm_core.specs.Inputs.{input_of, FitsInput};
ghost use Rattle.crsm_core.specs.Core.{CanBegin, CoreAwaits, CoreStands, Answers, IsSpent};

use crate::input::Input;
use crate::step;
use crsm_base::NoMemory;
use crsm_ledger::Ledger;
use crsm_replica::{ReplicaState, states_are_sound};
use crsm_replica_output::Batch;

/// One replica in memory. After an error it is spent, and a new one must be booted from its log.
#[derive(Drop)]
pub struct Core {
    state: ReplicaState,
    is_spent: bool,
}

impl Core {
    /// Returns the replica of a ledger, before its boot is recorded. `NoMemory` if memory runs out.
    pub fn new(ledger: Ledger) -> Result<Core, NoMemory>
        ensures { IfOk result (λ core. (me n : ℕ) (log : Log) → LedgerStands me n ledger log → EachFits me n log → AllByRecursion FitsRec log →
            me < 15 → 1 ≤ n → CoreAwaits core me n log) }
    {
        Ok(Core {
            state: ReplicaState::new(ledger)?,
            is_spent: false,
        })
    }

    #[tactic(auto, unfolding(crate::specs::Core::IsSpent))]
    /// Records the boot and returns its output. The first boot of a replica that began the cluster enters epoch 0.
    /// `NoMemory` if memory runs out; the replica is then spent.
    pub fn begin(&mut self) -> Result<Batch, NoMemory>
        requires { CanBegin self.old }
        ensures ruled { IfOk result (λ batch. (me n : ℕ) (log : Log) → CoreAwaits self.old me n log → boots log < u64_max →
            Answers batch (boot me n log) × CoreStands self.new (boot me n log).replica) }
        ensures spent { OnErr result (IsSpent self.new) }
        ensures stays_spent { IsSpent self.old → IsErr result }
    {
        states_are_sound();
        if self.is_spent {
            return Err(NoMemory);
        }
        // A caller that sees the error below must not continue from half a boot.
        self.is_spent = true;
        self.state.begin()?;
        let batch = self.state.take_batch()?;
        self.is_spent = false;
        Ok(batch)
    }

    #[tactic(auto, unfolding(crate::specs::Core::IsSpent))]
    /// Runs one step at this reading of the clock, in microseconds since 1970 at a running node, and returns its
    /// output. The records must be durable before the datagrams are sent. `NoMemory` if memory runs out; the replica is
    /// then spent.
    pub fn step(&mut self, input: &Input, reading: u64) -> Result<Batch, NoMemory>
        requires { FitsInput input.now }
        ensures ruled { IfOk result (λ batch. (r : Replica) → CoreStands self.old r →
            Answers batch (step r (input_of input.now) reading) × CoreStands self.new (step r (input_of input.now) reading).replica) }
        ensures spent { OnErr result (IsSpent self.new) }
        ensures stays_spent { IsSpent self.old → IsErr result }
    {
        states_are_sound();
        if self.is_spent {
            return Err(NoMemory);
        }
        // A caller that sees the error below must not continue from half a step.
        self.is_spent = true;
        step::step(&mut self.state, input, reading)?;
        let batch = self.state.take_batch()?;
        self.is_spent = false;
        Ok(batch)
    }

    /// Returns the ledger, the state of its log.
    pub fn ledger(&self) -> &Ledger
        ensures awaiting { (me n : ℕ) (log : Log) → CoreAwaits self.now me n log → LedgerStands me n result.now log }
        ensures standing { (r : Replica) → CoreStands self.now r → LedgerStands r.me r.n result.now r.log }
    {
        self.state.ledger()
    }

    /// Returns the ledger; all else that the core holds is dropped.
    pub fn into_ledger(self) -> Ledger
        ensures { (r : Replica) → CoreStands self r → LedgerStands r.me r.n result r.log }
    {
        self.state.into_ledger()
    }
}
