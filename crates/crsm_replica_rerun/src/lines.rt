//! The replay of a sheet line by line.

ghost use Rattle.std.specs.Prelude.{◌≡◌, ◌≢◌, ◌<◌, ◌≤◌, ◌+◌, ◌-◌, ◌^◌, ℕ, [], false, IsTrue, List, IfOk, IfErr, OnOk, MatchOption};
ghost use Rattle.std.specs.List.{AllByRecursion};
ghost use Rattle.crsm_base.specs.Records.{FitsRec};
ghost use Rattle.crsm_core.specs.Core.{FitsSent};
ghost use Rattle.crsm_replica_rerun.specs.Stages.{IsRefusal};
ghost use Rattle.crsm_replica_rerun.specs.Replaying.{AddsText, Advances, Ends, HasOpened, IsNoSheet, IsOfSome, LeadsTo, OpenedBehind, RerunStands, SaysLog, WhereStands, next_of};

use crate::ending::ending;
use crate::error::RerunError;
use crate::rerun::Rerun;
use crate::stage::SheetStage;
use crate::text::push_step;
use crsm_base::{Bodies, Bytes, Line};
use crsm_core::Batch;
use crsm_ledger::Ledger;
use crsm_text_sheet::SheetLine;
use std::alloc::Global;

impl Rerun {
    /// Returns the replay of replica `me`, in a cluster that began with `n`, before the first line of its sheet, which
    /// has the number `first`.
    pub fn new(alloc: Global, me: u32, n: u32, first: u64) -> Rerun
        requires me_below { me < 15 }
        requires some { 1 ≤ n }
        requires few { n ≤ 15 }
        ensures { RerunStands me n first result [] [] }
    {
        Rerun {
            alloc,
            me,
            n,
            next: first,
            stage: SheetStage::Finding {
                bodies: Bodies::new(alloc),
            },
        }
    }

    /// Returns the number of the next line.
    pub fn next_line(&self) -> u64
        ensures { result ≡ next_of self.now }
    {
        self.next
    }

    /// Replays a line and returns the replica's output: none at a body, its boot at `open`, a step at each later line.
    /// After an error the replay cannot continue.
    pub fn feed(&mut self, line: &SheetLine) -> Result<Batch, RerunError>
        requires { next_of self.old < 2 ^ 64 - 1 }
        ensures advances { WhereStands self.old (λ me n first lines steps. IfOk result (Advances me n first self.new lines steps line.now)) }
        ensures refused { WhereStands self.old (λ me n first lines steps. IfErr result (IsRefusal me n lines line.now)) }
        ensures opened { OnOk result (OpenedBehind line.now self.new) }
        ensures leads { OnOk result (LeadsTo self.old line.now self.new) }
        ensures records { IfOk result (λ batch. AllByRecursion FitsRec batch.records) }
        ensures spelt { IfOk result (λ batch. AllByRecursion FitsSent batch.sends) }
        ensures next { OnOk result (next_of self.new ≡ next_of self.old + 1) }
    {
        let batch = self.stage.take(self.alloc, self.me, self.n, line)?;
        self.next += 1;
        Ok(batch)
    }

    /// Replays a line and appends the text of the replica's output. After an error the replay cannot continue; after
    /// `NoMemory` part of the text may have been appended.
    pub fn replay(&mut self, line: &SheetLine, out: &mut Bytes) -> Result<(), RerunError>
        requires { next_of self.old < 2 ^ 64 - 1 }
        ensures adds { WhereStands self.old (λ me n first lines steps. OnOk result (AddsText me n first self.new lines steps line.now out.old out.new)) }
        ensures refused { WhereStands self.old (λ me n first lines steps. IfErr result (IsRefusal me n lines line.now)) }
        ensures kept { IfErr result (λ why. why ≢ RerunError.NoMemory → out.new ≡ out.old) }
        ensures next { OnOk result (next_of self.new ≡ next_of self.old + 1) }
    {
        let at = self.next;
        let batch = self.feed(line)?;
        push_step(self.alloc, out, at, &batch)?;
        Ok(())
    }

    /// Returns the final line of the replica, or `None` if the lines replayed are not a sheet.
    pub fn final_line(&self) -> Option<Line>
        ensures { WhereStands self.now (λ me n first lines steps. MatchOption result (IsNoSheet lines) (Ends me n first lines steps)) }
    {
        match &self.stage {
            SheetStage::Running { core } => Some(ending(self.me, core.ledger())),
            SheetStage::Finding { .. } => None,
            SheetStage::Spent => None,
        }
    }

    /// Returns whether the replica has booted.
    pub fn has_opened(&self) -> bool
        ensures yes { IsTrue result → HasOpened self.now }
        ensures no { result ≡ false → HasOpened self.now → ⊥ }
    {
        matches!(self.stage, SheetStage::Running { .. })
    }

    /// Returns the ledger of the replica, which has booted.
    pub fn ledger(&self) -> &Ledger
        requires { HasOpened self.now }
        ensures says { WhereStands self.now (λ me n first lines steps. SaysLog me n lines steps result.now) }
        ensures some { ∥ IsOfSome result.now ∥₁ }
    {
        match &self.stage {
            SheetStage::Running { core } => core.ledger(),
            SheetStage::Finding { .. } => unreachable!(),
            SheetStage::Spent => unreachable!(),
        }
    }
}
