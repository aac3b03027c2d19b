//! The executed slots.

ghost use Rattle.std.specs.Prelude.{◌≡◌, ◌<◌, ◌≤◌, IsTrue, ℕ, List, Some, [], ◌∷◌, ◌++◌, length, slice_get, take, IfOk, OnOk};
ghost use Rattle.std.specs.Option.{option_copied, option_map};
ghost use Rattle.crsm_spec.specs.Clock.{u64_max};
ghost use Rattle.crsm_mpspec.specs.Types.{Value};
ghost use Rattle.crsm_mpspec.specs.Values.{answer_after};
ghost use Rattle.crsm_mpledger.specs.Executed.{ExecutionsStand, WhereExecuted, executions_of};

use crsm_base::{Answer, NoMemory};
use crsm_kv::Store;
use crsm_mpspec::SharedValue;
use std::alloc::Global;

/// The execution of a slot.
#[derive(Drop)]
pub enum Execution {
    /// A noop was executed.
    Noop,
    /// A client's command was executed, with the store's answer.
    Applied {
        client: u64,
        number: u64,
        answer: Answer,
    },
}

/// The store after the executed slots, which are the first ones, and the executions of the last of them.
#[derive(Drop)]
pub(crate) struct Executions {
    store: Store,
    /// The number of the executed slots.
    count: u64,
    /// The first slot whose execution is kept: those before it are forgotten.
    first: u64,
    /// The executions of the slots from `first` on.
    slots: Vec<Execution>,
}

impl Executions {
    /// Returns the state before any slot was executed. `NoMemory` if memory runs out.
    #[tactic(auto, unfolding(crate::specs::Executed::executions_of, crate::specs::Executed::executions_behind, crsm_mpspec::specs::Values::rows_after))]
    pub(crate) fn new(alloc: Global) -> Result<Executions, NoMemory>
        ensures stands { IfOk result (λ executions. ExecutionsStand executions []) }
        ensures first { IfOk result (λ executions. executions.first ≡ 0) }
    {
        Ok(Executions {
            store: Store::new(alloc)?,
            count: 0,
            first: 0,
            slots: Vec::new(alloc),
        })
    }

    /// Returns the number of executed slots.
    pub(crate) fn len(&self) -> u64
        ensures value { WhereExecuted self.now (λ values. result ≡ length values) }
    {
        self.count
    }

    /// Forgets the executions of all executed slots.
    pub(crate) fn forget(&mut self)
        ensures stands { WhereExecuted self.old (λ values. ExecutionsStand self.new values) }
        ensures all { WhereExecuted self.old (λ values. self.new.first ≡ length values) }
    {
        self.first = self.count;
        self.slots.clear();
    }

    /// Returns whether the executions from this slot on are kept.
    pub(crate) fn keeps(&self, slot: u64) -> bool
        ensures { IsTrue result → self.now.first ≤ slot }
    {
        self.first <= slot
    }

    /// Returns the execution of a slot, or `None` if it is not executed, or forgotten.
    pub(crate) fn get(&self, slot: u64) -> Option<&Execution>
        ensures { WhereExecuted self.now (λ values. self.now.first ≤ slot → option_copied result ≡ slice_get (executions_of values) slot) }
    {
        if slot < self.first {
            return None;
        }
        self.slots.get((slot - self.first) as usize)
    }

    /// Returns the answer at an executed slot whose execution is not forgotten, or `None` at a noop. `NoMemory` if
    /// memory runs out.
    pub(crate) fn answer(&self, alloc: Global, slot: u64) -> Result<Option<Answer>, NoMemory>
        ensures { IfOk result (λ answer. WhereExecuted self.now (λ values. self.now.first ≤ slot → (v : Value) → slice_get values slot ≡ Some v →
            answer ≡ option_map (answer_after (take slot values)) v)) }
    {
        match self.get(slot) {
            Some(Execution::Applied { answer, .. }) => Ok(Some(answer.copy(alloc)?)),
            Some(Execution::Noop) => Ok(None),
            None => Ok(None),
        }
    }

    /// Executes this slot, which is the next one. `NoMemory` if memory runs out.
    #[tactic(auto, unfolding(crsm_mpspec::specs::Values::rows_after, crsm_mpspec::specs::Values::apply_value, crsm_mpspec::specs::Values::answer_after))]
    pub(crate) fn execute(&mut self, slot: u64, value: &SharedValue) -> Result<(), NoMemory>
        requires { slot < u64_max }
        ensures stands { OnOk result (WhereExecuted self.old (λ values. slot ≡ length values → ExecutionsStand self.new (values ++ value.now ∷ []))) }
        ensures first { OnOk result (self.new.first ≡ self.old.first) }
    {
        self.count = slot + 1;
        match value.get() {
            None => {
                self.slots.push(Execution::Noop)?;
                Ok(())
            }
            Some(command) => {
                let answer = self.store.apply(command)?;
                self.slots.push(Execution::Applied {
                    client: command.client,
                    number: command.number,
                    answer,
                })?;
                Ok(())
            }
        }
    }
}
