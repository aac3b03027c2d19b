//! One sheet: each line is replayed, and the replica's output is added to the account.

ghost use Rattle.std.specs.Prelude.{◌≡◌, ◌<◌, ◌≤◌, ◌+◌, ◌++◌, ◌∷◌, [], ℕ, List, IfErr, IfOk, OnOk, length};
ghost use Rattle.crsm_replica_rerun.specs.Replaying.{LeadsTo};
ghost use Rattle.crsm_replica_rerun.specs.Stages.{IsRefusal};
ghost use Rattle.crsm_audit.specs.State.{AtHand, SheetAdvances, StageStands, WhereAtHand, WhereSheetStands};
ghost use Rattle.crsm_audit.specs.Taking.{AllDone, Refuses};
ghost use Rattle.crsm_audit.specs.declared.line.AuditLine.{AuditLine as Spelt};

use crate::Account;
use crate::state::{Sheets, Stage};
use crsm_base::NoMemory;
use crsm_fact_step::batches_are_logged;
use crsm_law_sheets::executed_lists_grow;
use crsm_replica_rerun::{Rerun, RerunError};
use crsm_text_sheet::SheetLine;
use std::alloc::Global;

/// Takes a line of a sheet. After an error neither the replay nor the account can be used.
pub(crate) fn advance(
    rerun: &mut Rerun,
    account: &mut Account,
    line: &SheetLine,
) -> Result<(), RerunError>
    ensures ok { WhereSheetStands rerun.old account.old (λ me n first own steps. OnOk result (SheetAdvances me n first rerun.new account.new own steps line.now)) }
    ensures leads { OnOk result (LeadsTo rerun.old line.now rerun.new) }
    ensures err { WhereSheetStands rerun.old account.old (λ me n first own steps. IfErr result (IsRefusal me n own line.now)) }
{
    executed_lists_grow();
    batches_are_logged();
    let at = rerun.next_line();
    if at == u64::MAX {
        return Err(RerunError::NoMemory);
    }
    let batch = rerun.feed(line)?;
    if let SheetLine::Entry { bytes } = line {
        account.find(bytes.as_slice())?;
        return Ok(());
    }
    account.take(at, &batch, rerun.ledger())?;
    Ok(())
}

impl Sheets {
    /// Returns the sheets of which the first has begun: that of node `me`, after the line with number `at`. `NoMemory`
    /// if memory runs out, or the line after that has no number.
    pub(crate) fn new(alloc: Global, n: u32, at: u64, me: u32) -> Result<Sheets, NoMemory>
        requires some { 1 ≤ n }
        requires few { n ≤ 15 }
        requires me { me < 15 }
        ensures { (ls : List Spelt) → at ≡ length ls + 1 → AllDone n [] ls
            → IfOk result (λ sheets. StageStands n (Stage.Replaying sheets) (ls ++ Spelt.Node me ∷ [])) }
    {
        if at == u64::MAX {
            return Err(NoMemory);
        }
        let mut accounts = Vec::new(alloc);
        accounts.push(Account::new(alloc, me))?;
        let rerun = Rerun::new(alloc, me, n, at + 1);
        Ok(Sheets { rerun, accounts })
    }

    /// Begins the sheet of node `me` after the line with number `at`. `NoMemory` as above.
    pub(crate) fn begin(&mut self, alloc: Global, n: u32, at: u64, me: u32) -> Result<(), NoMemory>
        requires some { 1 ≤ n }
        requires few { n ≤ 15 }
        requires me { me < 15 }
        ensures { (ls : List Spelt) → at ≡ length ls + 1 → AllDone n self.old.accounts.items ls
            → OnOk result (StageStands n (Stage.Replaying self.new) (ls ++ Spelt.Node me ∷ [])) }
    {
        if at == u64::MAX {
            return Err(NoMemory);
        }
        self.accounts.push(Account::new(alloc, me))?;
        self.rerun = Rerun::new(alloc, me, n, at + 1);
        Ok(())
    }

    /// Takes a line of the current sheet. After an error the sheets cannot be used.
    pub(crate) fn replay(&mut self, line: &SheetLine) -> Result<(), RerunError>
        ensures ok { WhereAtHand self.old (λ n ls. OnOk result (AtHand n self.new (ls ++ Spelt.Sheet line.now ∷ []))) }
        ensures leads { OnOk result (LeadsTo self.old.rerun line.now self.new.rerun) }
        ensures err { WhereAtHand self.old (λ n ls. IfErr result (Refuses n ls self.old line.now)) }
    {
        let last = self.accounts.len() - 1;
        advance(&mut self.rerun, &mut self.accounts[last], line)
    }
}
