//! Readers of a ledger.

ghost use Rattle.std.specs.Prelude.{◌≡◌, ◌≤◌, Some, length, slice_get, take, IfOk};
ghost use Rattle.std.specs.Option.{option_copied, option_map};
ghost use Rattle.crsm_mpspec.specs.Log as logs;
ghost use Rattle.crsm_mpspec.specs.Types.{Value};
ghost use Rattle.crsm_mpspec.specs.Values.{answer_after};
ghost use Rattle.crsm_mpledger.specs.Executed.{executions_of};
ghost use Rattle.crsm_mpledger.specs.MpLedger.{WhereLedger, first_kept};

use crate::executions::Execution;
use crate::ledger::MpLedger;
use crsm_base::{Answer, Ballot, NoMemory};
use crsm_mpspec::SharedValue;

impl MpLedger {
    /// Returns the number of boots of the replica.
    pub fn boots(&self) -> u64
        ensures { WhereLedger self.now (λ log. result ≡ logs.boots log) }
    {
        self.boots
    }

    /// Returns the ballot that was promised last.
    pub fn promised(&self) -> Ballot
        ensures { WhereLedger self.now (λ log. result ≡ logs.promised log) }
    {
        self.promised
    }

    /// Returns the value accepted last at a slot, with its ballot, or `None` if none was.
    pub fn accepted(&self, slot: u64) -> Option<&(Ballot, SharedValue)>
        ensures { WhereLedger self.now (λ log. option_copied result ≡ logs.accepted_at slot log) }
    {
        self.accepted.get(slot)
    }

    /// Returns whether the value of a slot is known to be chosen.
    pub fn is_chosen(&self, slot: u64) -> bool
        ensures { WhereLedger self.now (λ log. result ≡ logs.is_chosen slot log) }
    {
        self.chosen.has(slot)
    }

    /// Returns the number of executed slots.
    pub fn executed_len(&self) -> u64
        ensures value { WhereLedger self.now (λ log. result ≡ length (logs.executed log)) }
    {
        self.executions.len()
    }

    /// Returns the value at a slot, or `None` if it is not executed.
    pub fn executed(&self, slot: u64) -> Option<&SharedValue>
        ensures { WhereLedger self.now (λ log. option_copied result ≡ slice_get (logs.executed log) slot) }
    {
        if slot < self.executions.len() {
            self.chosen.get(slot)
        } else {
            None
        }
    }

    /// Returns the execution of a slot, or `None` if it is not executed, or forgotten.
    pub fn execution(&self, slot: u64) -> Option<&Execution>
        ensures { WhereLedger self.now (λ log. first_kept self.now ≤ slot → option_copied result ≡ slice_get (executions_of (logs.executed log)) slot) }
    {
        self.executions.get(slot)
    }

    /// Returns the answer at an executed slot, or `None` at a noop. If its execution is forgotten, all slots are
    /// executed once more. `NoMemory` if memory runs out.
    pub fn answer(&self, slot: u64) -> Result<Option<Answer>, NoMemory>
        ensures { IfOk result (λ answer. WhereLedger self.now (λ log. (v : Value) → slice_get (logs.executed log) slot ≡ Some v →
            answer ≡ option_map (answer_after (take slot (logs.executed log))) v)) }
    {
        if self.executions.keeps(slot) {
            let answer = self.executions.answer(self.alloc, slot)?;
            return Ok(answer);
        }
        let all = self.execute_again()?;
        let answer = all.answer(self.alloc, slot)?;
        Ok(answer)
    }
}
