//! The lines of an audit: each sheet is replayed, and has an account.

ghost use Rattle.std.specs.Prelude.{◌≡◌, ◌≤◌, ◌+◌, ◌++◌, ◌∷◌, ℕ, [], List, IfErr, IfOk, OnOk, length};
ghost use Rattle.crsm_audit.specs.Handled.{StandsBehind, StopsEnd, StopsLine, StopsUnread};
ghost use Rattle.crsm_audit.specs.Lines.{BeginAnAudit, FitsLine, IsAnAudit, line_text};
ghost use Rattle.crsm_audit.specs.Taking.{AllDone, EndsWith, stage_after};
ghost use Rattle.crsm_audit.specs.State.{StageStands};
ghost use Rattle.crsm_audit.specs.declared.line.AuditLine.{AuditLine as Spelt};

use crate::entries::AccountEntries;
use crate::judging::longest;
use crate::line::{AuditLine, Progress, follows, read_line};
use crate::state::{Audit, BadLog, Sheets, Stage};
use crate::text::push_verdict;
use crate::{Account, judge};
use crsm_base::{Bytes, NoMemory};
use crsm_cmd_replay_node::SheetCause;
use crsm_law_sheets::agreeing_sheets_are_safe;
use crsm_port_lines::{Handler, Stop};
use crsm_replica_rerun::RerunError;
use crsm_text_sheet::LineError;
use std::alloc::Global;

/// Parses a line of an audit. `Unreadable` if it is outside the grammar.
fn line_of(alloc: Global, text: &[u8]) -> Result<AuditLine, Stop<SheetCause>>
    ensures found { IfOk result (λ line. FitsLine line × (text.now ≡ line_text line)) }
    ensures one { (line : Spelt) → FitsLine line → text.now ≡ line_text line → IfOk result (λ read. read ≡ line) }
    ensures err { IfErr result (λ stop. StopsUnread stop text.now) }
{
    match read_line(alloc, text) {
        Ok(line) => Ok(line),
        Err(LineError::Unreadable) => Err(Stop::Refused(SheetCause::Unreadable)),
        Err(LineError::NoMemory) => Err(Stop::NoMemory),
    }
}

/// Takes a line where no log was bad so far, and returns the bad log if that of the current sheet is one.
fn replayed(
    alloc: Global,
    n: u32,
    sheets: &mut Sheets,
    at: u64,
    line: &AuditLine,
) -> Result<Option<BadLog>, Stop<SheetCause>>
    requires some { 1 ≤ n }
    requires few { n ≤ 15 }
    requires fits { FitsLine line.now }
    ensures ok { (ls : List Spelt) → at ≡ length ls + 1 → StageStands n (Stage.Replaying sheets.old) ls
        → IfOk result (λ bad. StageStands n (stage_after sheets.new bad) (ls ++ line.now ∷ [])) }
    ensures err { (ls : List Spelt) → StageStands n (Stage.Replaying sheets.old) ls → IfErr result (λ stop. StopsLine ls line.now stop) }
{
    match line {
        AuditLine::Node { me } => {
            if !sheets.rerun.has_opened() {
                return Err(Stop::Refused(SheetCause::Unreadable));
            }
            sheets.begin(alloc, n, at, *me)?;
            Ok(None)
        }
        AuditLine::Sheet { line } => match sheets.replay(line) {
            Ok(()) => Ok(None),
            Err(RerunError::BadLog { entry, why }) => Ok(Some(BadLog { entry, why })),
            Err(RerunError::Misplaced) => Err(Stop::Refused(SheetCause::Unreadable)),
            Err(RerunError::NoMemory) => Err(Stop::NoMemory),
        },
    }
}

/// Appends the text of the verdict on sheets with these accounts. `NoMemory` if memory runs out.
fn push_judged(alloc: Global, accounts: &[Account], text: &mut Bytes) -> Result<(), NoMemory>
    ensures { (n : ℕ) (ls : List Spelt) → AllDone n accounts.now ls → IsAnAudit ls → OnOk result (EndsWith n ls text.old text.new) }
{
    agreeing_sheets_are_safe();
    let verdict = judge(alloc, accounts)?;
    let none = AccountEntries::new(alloc);
    push_verdict(alloc, text, longest(accounts, &none), &verdict)?;
    Ok(())
}

impl Audit {
    /// Returns the audit of a cluster that began with `n`, before the first line.
    pub(crate) fn new(alloc: Global, n: u32) -> Audit
        requires some { 1 ≤ n }
        requires few { n ≤ 15 }
        ensures n { result.n ≡ n }
        ensures begins { StandsBehind result [] }
    {
        Audit {
            alloc,
            n,
            stage: Stage::Before,
        }
    }

    /// Adds the line with this number if it may follow those before it, else refuses it.
    fn take(&mut self, at: u64, line: &AuditLine) -> Result<(), Stop<SheetCause>>
        requires { FitsLine line.now }
        ensures ok { (ls : List Spelt) → at ≡ length ls + 1 → StandsBehind self.old ls
            → OnOk result (BeginAnAudit (ls ++ line.now ∷ []) × StandsBehind self.new (ls ++ line.now ∷ [])) }
        ensures err { (ls : List Spelt) → StandsBehind self.old ls → IfErr result (λ stop. StopsLine ls line.now stop) }
        ensures n { self.new.n ≡ self.old.n }
    {
        match &mut self.stage {
            Stage::Before => {
                let AuditLine::Node { me } = line else {
                    return Err(Stop::Refused(SheetCause::Unreadable));
                };
                let sheets = Sheets::new(self.alloc, self.n, at, *me)?;
                self.stage = Stage::Replaying { sheets };
                Ok(())
            }
            Stage::Replaying { sheets } => {
                if let Some(bad) = replayed(self.alloc, self.n, sheets, at, line)? {
                    let progress = Progress::Running;
                    self.stage = Stage::Refusing { bad, progress };
                }
                Ok(())
            }
            Stage::Refusing { progress, .. } => {
                let Some(next) = follows(*progress, line) else {
                    return Err(Stop::Refused(SheetCause::Unreadable));
                };
                *progress = next;
                Ok(())
            }
        }
    }

    /// Appends the text of the verdict, if the lines are an audit and no log is bad.
    fn conclude(&self, text: &mut Bytes) -> Result<(), Stop<SheetCause>>
        ensures ok { (ls : List Spelt) → StandsBehind self.now ls → OnOk result (EndsWith self.now.n ls text.old text.new) }
        ensures err { (ls : List Spelt) → StandsBehind self.now ls → IfErr result (λ stop. StopsEnd self.now.n ls stop) }
    {
        match &self.stage {
            Stage::Before => Err(Stop::Refused(SheetCause::Unreadable)),
            Stage::Replaying { sheets } => {
                if !sheets.rerun.has_opened() {
                    return Err(Stop::Refused(SheetCause::Unreadable));
                }
                push_judged(self.alloc, sheets.accounts.as_slice(), text)?;
                Ok(())
            }
            Stage::Refusing { bad, progress } => {
                let Progress::Running = *progress else {
                    return Err(Stop::Refused(SheetCause::Unreadable));
                };
                let (entry, why) = (bad.entry, bad.why);
                Err(Stop::Refused(SheetCause::BadLog { entry, why }))
            }
        }
    }
}

impl Handler for Audit {
    type Refusal = SheetCause;

    ghost use Rattle.crsm_audit.specs.Handled.{audited};

    ghost handling = { λ first. audited first.n };

    fn line(&mut self, at: u64, line: &[u8], _text: &mut Bytes) -> Result<(), Stop<SheetCause>> {
        let line = line_of(self.alloc, line)?;
        let taken = self.take(at, &line);
        drop(line);
        taken
    }

    fn end(&self, text: &mut Bytes) -> Result<(), Stop<SheetCause>> {
        self.conclude(text)
    }
}
