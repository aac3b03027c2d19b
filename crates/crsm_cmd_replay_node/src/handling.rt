//! The lines of a sheet: each is passed to the replica that is replayed.

ghost use Rattle.std.specs.Prelude.{◌≡◌, ◌≢◌, ◌<◌, ◌≤◌, ◌^◌, ◌-◌, ◌++◌, [], ℕ, List, IfErr, IfOk, OnOk};
ghost use Rattle.crsm_replica_rerun.specs.Replaying.{RerunStands, WhereStands, AddsText};
ghost use Rattle.crsm_text_sheet.specs.declared.line.SheetLine.{SheetLine as Spelt};
ghost use Rattle.crsm_text_sheet.specs.Grammar.{FitsSheetLine, sheet_line_text};
ghost use Rattle.crsm_cmd_replay_node.specs.Handled.{StopsUnread, StopsLine};

use crate::cause::SheetCause;
use crsm_base::Bytes;
use crsm_port_lines::{Handler, Stop};
use crsm_replica_rerun::{Rerun, RerunError};
use crsm_schedule::push_line;
use crsm_text_sheet::{LineError, SheetLine, read_sheet};
use std::alloc::Global;

/// Parses a line of a sheet. `Unreadable` if it is outside the grammar.
fn line_of(alloc: Global, text: &[u8]) -> Result<SheetLine, Stop<SheetCause>>
    ensures found { IfOk result (λ line. FitsSheetLine line × (text.now ≡ sheet_line_text line)) }
    ensures one { (line : Spelt) → FitsSheetLine line → text.now ≡ sheet_line_text line → IfOk result (λ read. read ≡ line) }
    ensures err { IfErr result (λ stop. StopsUnread stop text.now) }
{
    match read_sheet(alloc, text) {
        Ok(line) => Ok(line),
        Err(LineError::Unreadable) => Err(Stop::Refused(SheetCause::Unreadable)),
        Err(LineError::NoMemory) => Err(Stop::NoMemory),
    }
}

/// The replay of a sheet.
#[derive(Drop)]
pub(crate) struct SheetReplay {
    alloc: Global,
    me: u32,
    n: u32,
    rerun: Rerun,
}

impl SheetReplay {
    /// Returns the replay of the sheet of replica `me`, of a cluster that began with `n`, before its first line.
    pub(crate) fn new(alloc: Global, me: u32, n: u32) -> SheetReplay
        requires me_below { me < 15 }
        requires some { 1 ≤ n }
        requires few { n ≤ 15 }
        ensures me { result.me ≡ me }
        ensures n { result.n ≡ n }
        ensures begins { RerunStands me n 1 result.rerun [] [] }
    {
        let rerun = Rerun::new(alloc, me, n, 1);
        SheetReplay {
            alloc,
            me,
            n,
            rerun,
        }
    }

    /// Replays a line, and appends the text of the replica's output.
    fn advance(&mut self, line: &SheetLine, text: &mut Bytes) -> Result<(), Stop<SheetCause>>
        ensures same { (self.new.me ≡ self.old.me) × (self.new.n ≡ self.old.n) }
        ensures ok { WhereStands self.old.rerun (λ me n first lines steps. OnOk result (AddsText me n first self.new.rerun lines steps line.now text.old text.new)) }
        ensures err { WhereStands self.old.rerun (λ me n first lines steps. IfErr result (λ stop. StopsLine me n lines line.now text.old text.new stop)) }
    {
        if self.rerun.next_line() == u64::MAX {
            return Err(Stop::NoMemory);
        }
        match self.rerun.replay(line, text) {
            Ok(()) => Ok(()),
            Err(RerunError::Misplaced) => Err(Stop::Refused(SheetCause::Unreadable)),
            Err(RerunError::BadLog { entry, why }) => {
                Err(Stop::Refused(SheetCause::BadLog { entry, why }))
            }
            Err(RerunError::NoMemory) => {
                text.clear();
                Err(Stop::NoMemory)
            }
        }
    }
}

impl Handler for SheetReplay {
    type Refusal = SheetCause;

    ghost use Rattle.crsm_cmd_replay_node.specs.Handled.{sheet_of_node};

    ghost handling = { λ first. sheet_of_node first.me first.n };

    fn line(&mut self, _at: u64, line: &[u8], text: &mut Bytes) -> Result<(), Stop<SheetCause>> {
        let line = line_of(self.alloc, line)?;
        let advanced = self.advance(&line, text);
        drop(line);
        advanced
    }

    fn end(&self, text: &mut Bytes) -> Result<(), Stop<SheetCause>> {
        let Some(line) = self.rerun.final_line() else {
            return Err(Stop::Refused(SheetCause::Unreadable));
        };
        let pushed = push_line(text, 0, &line);
        drop(line);
        let Ok(()) = pushed else {
            return Err(Stop::NoMemory);
        };
        Ok(())
    }
}
