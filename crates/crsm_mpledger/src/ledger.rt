//! The ledger of a log, and how a record changes it.

ghost use Rattle.std.specs.Prelude.{◌≡◌, ◌∷◌, [], ℕ, List, length, IfOk, OnOk};
ghost use Rattle.crsm_mpspec.specs.declared.rec.MpRec.{MpRec as Record};
ghost use Rattle.crsm_mpspec.specs.Log.{Log, by_slot, choices, executed, run_from};
ghost use Rattle.crsm_mpledger.specs.BySlot.{SlotsStand};
ghost use Rattle.crsm_mpledger.specs.Executed.{ExecutesKnown, ExecutionsStand};
ghost use Rattle.crsm_mpledger.specs.MpLedger.{CanFollow, MayBoot, MpLedgerStands, WhereLedger, first_kept};
ghost use Rattle.crsm_mpledger.specs.Sound.{IsSound, MayFollow};

use crate::by_slot::BySlot;
use crate::executions::Executions;
use crsm_base::{Ballot, NoMemory};
use crsm_mpspec::{MpRec, SharedValue};
use std::alloc::Global;

/// Executes the slots after the executed ones, up to the first whose value is not known.
fn execute_known(chosen: &BySlot<SharedValue>, executions: &mut Executions) -> Result<(), NoMemory>
    ensures stands { OnOk result (ExecutesKnown chosen.now executions.old executions.new) }
    ensures first { OnOk result (executions.new.first ≡ executions.old.first) }
{
    for slot in executions.len()..u64::MAX {
        let Some(value) = chosen.get(slot) else {
            return Ok(());
        };
        executions.execute(slot, value)?;
    }
    Ok(())
}

/// The state that the records of a log lead to. After an error its fields are unspecified.
pub struct MpLedger {
    pub(crate) alloc: Global,
    pub(crate) boots: u64,
    pub(crate) promised: Ballot,
    /// The value accepted last at each slot, with its ballot.
    pub(crate) accepted: BySlot<(Ballot, SharedValue)>,
    /// The value of each slot that is known to be chosen.
    pub(crate) chosen: BySlot<SharedValue>,
    /// The executed slots: all up to the first whose value is not known.
    pub(crate) executions: Executions,
}

// Written by hand, it is one call for the crates above, which would prove a derived one again.
impl Drop for MpLedger {
    fn drop(self) {
        let MpLedger {
            alloc: _,
            boots: _,
            promised: _,
            accepted: _,
            chosen: _,
            executions: _,
        } = self;
    }
}

impl MpLedger {
    /// Returns the ledger of an empty log. `NoMemory` if memory runs out.
    pub fn new(alloc: Global) -> Result<MpLedger, NoMemory>
        ensures { IfOk result (λ ledger. MpLedgerStands ledger []) }
    {
        Ok(MpLedger {
            alloc,
            boots: 0,
            promised: Ballot { round: 0, by: 0 },
            accepted: BySlot::new(alloc),
            chosen: BySlot::new(alloc),
            executions: Executions::new(alloc)?,
        })
    }

    /// Forgets the executions of all executed slots.
    pub fn forget_executions(&mut self)
        ensures stands { WhereLedger self.old (λ log. MpLedgerStands self.new log) }
        ensures all { WhereLedger self.old (λ log. first_kept self.new ≡ length (executed log)) }
    {
        self.executions.forget();
    }

    /// Executes all slots once more, and returns their executions. `NoMemory` if memory runs out.
    pub(crate) fn execute_again(&self) -> Result<Executions, NoMemory>
        ensures stands { IfOk result (λ all. WhereLedger self.now (λ log. ExecutionsStand all (executed log))) }
        ensures first { IfOk result (λ all. all.first ≡ 0) }
    {
        let mut all = Executions::new(self.alloc)?;
        execute_known(&self.chosen, &mut all)?;
        Ok(all)
    }

    /// Counts one more boot, of which there must be fewer than 2^64 - 1.
    pub fn boot(&mut self)
        requires { MayBoot self.old }
        ensures { WhereLedger self.old (λ log. MpLedgerStands self.new (Record.Boot ∷ log)) }
    {
        self.boots += 1;
    }

    /// Records the acceptance of a value, and the promise of its ballot.
    fn accept(&mut self, slot: u64, ballot: Ballot, value: SharedValue) -> Result<(), NoMemory>
        ensures stands { OnOk result (WhereLedger self.old (λ log. MayFollow log (Record.Accept slot ballot value) → MpLedgerStands self.new (Record.Accept slot ballot value ∷ log))) }
        ensures kept { OnOk result (first_kept self.new ≡ first_kept self.old) }
    {
        self.accepted.insert(slot, (ballot, value))?;
        self.promised = ballot;
        Ok(())
    }

    /// Records the chosen value of a slot, and executes it and its successors once all before it are executed.
    fn choose(&mut self, slot: u64, value: SharedValue) -> Result<(), NoMemory>
        ensures stands { OnOk result (WhereLedger self.old (λ log. MayFollow log (Record.Choose slot value) → MpLedgerStands self.new (Record.Choose slot value ∷ log))) }
        ensures kept { OnOk result (first_kept self.new ≡ first_kept self.old) }
    {
        self.chosen.insert(slot, value)?;
        execute_known(&self.chosen, &mut self.executions)?;
        Ok(())
    }

    /// Applies a record. `NoMemory` if memory runs out; the ledger is then spent.
    pub fn follow(&mut self, rec: &MpRec) -> Result<(), NoMemory>
        requires { CanFollow self.old rec.now }
        ensures stands { OnOk result (WhereLedger self.old (λ log. MayFollow log rec.now → MpLedgerStands self.new (rec.now ∷ log))) }
        ensures kept { OnOk result (first_kept self.new ≡ first_kept self.old) }
    {
        match rec {
            MpRec::Boot => {
                self.boots += 1;
                Ok(())
            }
            MpRec::Promise { ballot } => {
                self.promised = *ballot;
                Ok(())
            }
            MpRec::Accept {
                slot,
                ballot,
                value,
            } => {
                let value = value.share()?;
                self.accept(*slot, *ballot, value)?;
                Ok(())
            }
            MpRec::Choose { slot, value } => {
                let value = value.share()?;
                self.choose(*slot, value)?;
                Ok(())
            }
        }
    }

    /// Applies a record, by value.
    pub(crate) fn take(&mut self, rec: MpRec) -> Result<(), NoMemory>
        requires { CanFollow self.old rec }
        ensures { OnOk result (WhereLedger self.old (λ log. MayFollow log rec → MpLedgerStands self.new (rec ∷ log))) }
    {
        match rec {
            MpRec::Boot => {
                self.boot();
                Ok(())
            }
            MpRec::Promise { ballot } => {
                self.promised = ballot;
                Ok(())
            }
            MpRec::Accept {
                slot,
                ballot,
                value,
            } => {
                self.accept(slot, ballot, value)?;
                Ok(())
            }
            MpRec::Choose { slot, value } => {
                self.choose(slot, value)?;
                Ok(())
            }
        }
    }
}
