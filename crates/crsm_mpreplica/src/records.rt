//! The records of a step, and their lines.

ghost use Rattle.std.specs.Prelude.{◌≡◌, ◌<◌, ◌≤◌, ◌++◌, ◌∷◌, [], List, Some, length, take, drop, OnOk, IfOk};
ghost use Rattle.crsm_base.specs.Spelling.{FitsBallot, FitsCommand, FitsOption};
ghost use Rattle.crsm_spec.specs.Clock.{u64_max};
ghost use Rattle.crsm_mpspec.specs.Deciding as deciding;
ghost use Rattle.crsm_mpspec.specs.Draft as drafts;
ghost use Rattle.crsm_mpspec.specs.Draft.{exec_lines};
ghost use Rattle.crsm_mpspec.specs.Log.{Log, executed};
ghost use Rattle.crsm_mpspec.specs.Types.{Value};
ghost use Rattle.crsm_mpspec.specs.Records.{FitsRec};
ghost use Rattle.crsm_mpspec.specs.declared.line.MpLine.{MpLine as Line};
ghost use Rattle.crsm_mpspec.specs.declared.rec.MpRec.{MpRec as Record};
ghost use Rattle.crsm_mpledger.specs.MpLedger.{CanFollow, MpLedgerStands, WhereLedger, first_kept};
ghost use Rattle.crsm_mpledger.specs.Executed.{execution_after};
ghost use Rattle.crsm_mpledger.specs.Sound.{MayFollow};
ghost use Rattle.crsm_mpreplica.specs.Fitting.{FitsAccept, FitsChoice};
ghost use Rattle.crsm_mpreplica.specs.Made.{MadeStands, Outcome, TellsExecuted, submitted};
ghost use Rattle.crsm_mpreplica.specs.State.{MakesWhere};

use crate::made::StepOutput;
use crate::note::{Note, close, end_below};
use crate::state::MpReplica;
use crsm_base::{Ballot, NoMemory};
use crsm_mpledger::{Execution, MpLedger, executed_slots_grow, executions_are_by_slot};
use crsm_mpspec::{MpLine, MpRec, SharedCommand, SharedValue};
use std::alloc::Global;

/// Applies a record, and adds it with its line to the output.
fn keep(
    ledger: &mut MpLedger,
    made: &mut StepOutput,
    rec: MpRec,
    line: MpLine,
) -> Result<(), NoMemory>
    requires { CanFollow ledger.old rec }
    ensures ledger { OnOk result (WhereLedger ledger.old (λ log. MayFollow log rec → MpLedgerStands ledger.new (rec ∷ log))) }
    ensures kept { OnOk result (first_kept ledger.new ≡ first_kept ledger.old) }
    ensures made { OnOk result ((o : Outcome) → MadeStands made.old o → FitsRec rec → MadeStands made.new (record o { batch = o.batch ++ rec ∷ []; lines = o.lines ++ line ∷ [] })) }
{
    made.tell(line)?;
    ledger.follow(&rec)?;
    made.record(rec)?;
    Ok(())
}

impl MpReplica {
    /// Promises a ballot. `NoMemory` if memory runs out.
    pub fn promise(&mut self, ballot: Ballot) -> Result<(), NoMemory>
        ensures { MakesWhere (λ x. FitsBallot ballot) (drafts.keep (Record.Promise ballot)) self.old result self.new }
    {
        let line = MpLine::Promise {
            replica: self.me,
            round: ballot.round,
            by: ballot.by,
        };
        keep(
            &mut self.ledger,
            &mut self.made,
            MpRec::Promise { ballot },
            line,
        )?;
        end_below(&mut self.note, ballot);
        Ok(())
    }

    /// Accepts a value, with this line.
    fn accept_as(
        &mut self,
        line: MpLine,
        slot: u64,
        ballot: Ballot,
        value: SharedValue,
    ) -> Result<(), NoMemory>
        ensures { MakesWhere (λ x. FitsAccept slot ballot value) (drafts.keep_as line (Record.Accept slot ballot value)) self.old result self.new }
    {
        let rec = MpRec::Accept {
            slot,
            ballot,
            value,
        };
        keep(&mut self.ledger, &mut self.made, rec, line)?;
        end_below(&mut self.note, ballot);
        Ok(())
    }

    /// Accepts a value that is not a command of a client of this replica. `NoMemory` if memory runs out.
    pub fn accept(&mut self, slot: u64, ballot: Ballot, value: &SharedValue) -> Result<(), NoMemory>
        ensures { MakesWhere (λ x. FitsAccept slot ballot value.now) (drafts.keep (Record.Accept slot ballot value.now)) self.old result self.new }
    {
        let line = MpLine::Accept {
            replica: self.me,
            slot,
            round: ballot.round,
            by: ballot.by,
        };
        let value = value.share()?;
        self.accept_as(line, slot, ballot, value)?;
        Ok(())
    }

    /// Accepts a client's command. `NoMemory` if memory runs out.
    pub fn submit(
        &mut self,
        slot: u64,
        ballot: Ballot,
        command: &SharedCommand,
    ) -> Result<(), NoMemory>
        ensures { MakesWhere (λ x. FitsAccept slot ballot (Some command.now)) (submitted slot ballot command.now) self.old result self.new }
    {
        let own = command.get();
        let line = MpLine::Submit {
            replica: self.me,
            slot,
            round: ballot.round,
            by: ballot.by,
            client: own.client,
            number: own.number,
        };
        let value = command.to_value()?;
        self.accept_as(line, slot, ballot, value)?;
        Ok(())
    }

    /// Records the chosen value of a slot, unless it is known, and executes it and its successors once all before it
    /// are executed. `NoMemory` if memory runs out.
    pub fn choose(&mut self, slot: u64, value: &SharedValue) -> Result<(), NoMemory>
        ensures { MakesWhere (λ x. FitsChoice slot value.now) (deciding.choose slot value.now) self.old result self.new }
    {
        if self.ledger.is_chosen(slot) {
            return Ok(());
        }
        executed_slots_grow();
        let before = self.ledger.executed_len();
        let value = value.share()?;
        let line = MpLine::Choose {
            replica: self.me,
            slot,
        };
        keep(
            &mut self.ledger,
            &mut self.made,
            MpRec::Choose { slot, value },
            line,
        )?;
        close(&mut self.note, slot);
        tell_executed(self.alloc, self.me, &self.ledger, &mut self.made, before)?;
        Ok(())
    }
}

/// Adds the lines of the slots executed from `first` on.
fn tell_executed(
    alloc: Global,
    me: u32,
    ledger: &MpLedger,
    made: &mut StepOutput,
    first: u64,
) -> Result<(), NoMemory>
    ensures { OnOk result (TellsExecuted me first ledger.now made.old made.new) }
{
    executions_are_by_slot();
    for slot in first..ledger.executed_len() {
        let Some(execution) = ledger.execution(slot) else {
            // Those of the step itself are not forgotten.
            return Ok(());
        };
        let line = exec_line(alloc, me, slot, execution)?;
        made.tell(line)?;
    }
    Ok(())
}

/// Returns the line of the execution of a slot.
#[tactic(auto, unfolding(crsm_mpspec::specs::Draft::exec_line, crsm_mpledger::specs::Executed::execution_after))]
fn exec_line(
    alloc: Global,
    replica: u32,
    slot: u64,
    execution: &Execution,
) -> Result<MpLine, NoMemory>
    ensures { IfOk result (λ line. (done : List Value) (v : Value) → slot ≡ length done → execution.now ≡ execution_after done v →
        line ≡ drafts.exec_line replica done v) }
{
    match execution {
        Execution::Noop => Ok(MpLine::ExecNoop { replica, slot }),
        Execution::Applied {
            client,
            number,
            answer,
        } => Ok(MpLine::Exec {
            replica,
            slot,
            client: *client,
            number: *number,
            answer: answer.copy(alloc)?,
        }),
    }
}
