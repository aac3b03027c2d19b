//! The reports of a replica on its log.

ghost use Rattle.std.specs.Prelude.{◌≡◌, IfOk};
ghost use Rattle.crsm_mpspec.specs.Log as logs;
ghost use Rattle.crsm_mpledger.specs.MpLedger.{WhereLedger};

use crate::ledger::MpLedger;
use crsm_base::NoMemory;
use crsm_mpspec::{MpAccepted, MpAccepts, MpChoices, MpChosen};

impl MpLedger {
    /// Returns the value accepted last at each slot from `start` on, by slot. `NoMemory` if memory runs out.
    #[tactic(auto, unfolding(crsm_mpspec::specs::Log::accepted_from))]
    pub fn accepted_from(&self, start: u64) -> Result<MpAccepts, NoMemory>
        ensures { IfOk result (λ accepts. WhereLedger self.now (λ log. accepts ≡ logs.accepted_from start log)) }
    {
        let mut accepts = Vec::new(self.alloc);
        let first = self.accepted.prefix();
        for slot in start..first.len() as u64 {
            let (ballot, value) = &first[slot as usize];
            accepts.push(MpAccepted {
                slot,
                ballot: *ballot,
                value: value.share()?,
            })?;
        }
        for (slot, (ballot, value)) in self.accepted.beyond().range(start..) {
            accepts.push(MpAccepted {
                slot: *slot,
                ballot: *ballot,
                value: value.share()?,
            })?;
        }
        let list = MpAccepts::new(self.alloc, accepts)?;
        Ok(list)
    }

    /// Returns the values known to be chosen at the slots from `start` on, by slot. `NoMemory` if memory runs out.
    #[tactic(auto, unfolding(crsm_mpspec::specs::Log::chosen_from))]
    pub fn chosen_from(&self, start: u64) -> Result<MpChoices, NoMemory>
        ensures { IfOk result (λ choices. WhereLedger self.now (λ log. choices ≡ logs.chosen_from start log)) }
    {
        let mut choices = Vec::new(self.alloc);
        let first = self.chosen.prefix();
        for slot in start..first.len() as u64 {
            let value = &first[slot as usize];
            choices.push(MpChosen {
                slot,
                value: value.share()?,
            })?;
        }
        for (slot, value) in self.chosen.beyond().range(start..) {
            choices.push(MpChosen {
                slot: *slot,
                value: value.share()?,
            })?;
        }
        let list = MpChoices::new(self.alloc, choices)?;
        Ok(list)
    }
}
