//! The table `journal`: what nodes over devices in memory say of themselves. The lines are those of the table `node`,
//! each behind how long the flushes take in microseconds, `-` for no time, of which the last one comes again.
//!
//! For each line stand the lines of the node's journal, each behind its level, and then `== end`.

use crate::script::Script;
use crate::words::{numbers_of, parted, small_of};
use crsm_base::Bytes;
use crsm_clock::{Clock, ListClock};
use crsm_ledger::Ledger;
use crsm_node::{BootReport, Reporter};
use crsm_replica_journal::Journal;
use crsm_shell::TurnResult;
use crsm_test_cases::Fault;
use std::alloc::Global;

/// A reporter that keeps all lines of a journal.
#[derive(Drop)]
struct Kept {
    alloc: Global,
    me: u32,
    journal: Option<Journal>,
    /// How long the flushes take.
    times: ListClock,
}

impl Reporter for Kept {
    fn booted(&mut self, held: BootReport) {
        self.journal = Some(Journal::new(
            self.alloc,
            self.me,
            held.bytes,
            held.epoch,
            held.executed,
        ));
    }

    fn turned(&mut self, turn: &TurnResult, datagram: &[u8], state: &Ledger) {
        if let Some(journal) = &mut self.journal {
            journal.turned(turn, datagram, state);
        }
    }

    fn kept(&mut self) {
        let time = self.times.now();
        if let Some(journal) = &mut self.journal {
            journal.kept(time);
        }
    }
}

/// Appends the lines of the journal.
fn push_lines(alloc: Global, journal: &Journal, out: &mut Bytes) -> Result<(), Fault> {
    for line in journal.lines() {
        let text = format!(in alloc; "{}: {}\n", line.level(), line)?;
        out.append(text.as_bytes())?;
    }
    Ok(())
}

fn push_kept(alloc: Global, kept: &Kept, out: &mut Bytes) -> Result<(), Fault> {
    match &kept.journal {
        Some(journal) => push_lines(alloc, journal, out),
        None => Ok(()),
    }
}

/// Runs the node of this number, whose flushes take these times, and appends what it says.
fn run(
    alloc: Global,
    me: u32,
    times: ListClock,
    script: &mut Script,
    out: &mut Bytes,
) -> Result<(), Fault> {
    let mut kept = Kept {
        alloc,
        me,
        journal: None,
        times,
    };
    let _end = script.run(alloc, &mut kept);
    let pushed = push_kept(alloc, &kept, out);
    drop(kept);
    pushed
}

/// Appends what the node of a line says.
fn push_line(alloc: Global, line: &str, out: &mut Bytes) -> Result<(), Fault> {
    let (times, line) = parted(line)?;
    let (me, _) = parted(line)?;
    let me = small_of(me)?;
    let times = ListClock::new(alloc, &numbers_of(alloc, times)?)?;
    let mut script = Script::read(alloc, line, &[])?;
    run(alloc, me, times, &mut script, out)
}

/// Appends what the nodes of all lines of the table say.
pub fn push_all(alloc: Global, text: &str, out: &mut Bytes) -> Result<(), Fault> {
    for line in text.lines() {
        push_line(alloc, line, out)?;
        out.append(b"== end\n")?;
    }
    Ok(())
}
