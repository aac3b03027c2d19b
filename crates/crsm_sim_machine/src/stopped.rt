//! The state that a crash leaves.

ghost use Rattle.std.specs.Prelude.{◌≡◌, ℕ, [], IfOk};
ghost use Rattle.crsm_port_image.specs.Image.{image_of};
ghost use Rattle.crsm_ledger.specs.Ledger.{LedgerStands};
ghost use Rattle.crsm_spec.specs.Log.{Log};
ghost use Rattle.crsm_spec.specs.Replica.{Replica};
ghost use Rattle.crsm_shell.specs.Shell.{HasLog};
ghost use Rattle.crsm_sim_machine.specs.States.{HasSomeLeft, IsDisk, IsSomeUp, IsStopped, IsUp, IsUpAs, SumsUp};

use crsm_base::NoMemory;
use crsm_disk::MemDisk;
use crsm_ledger::Ledger;
use crsm_shell::{Shell, StoppedLog, empty_files_have_empty_logs};
use std::alloc::Global;

/// The summary of a log.
#[derive(Clone, Copy)]
pub(crate) struct LogSummary {
    /// The number of the known epoch.
    pub(crate) known: u64,
    /// Number of executed entries.
    pub(crate) executed: u64,
}

/// The summary of an empty log.
pub(crate) const NOTHING: LogSummary = LogSummary {
    known: 0,
    executed: 0,
};

/// What is left of a replica that is down.
#[derive(Drop)]
pub(crate) enum Left {
    /// The disk alone: no replica was booted on it, or a put stopped.
    Disk(MemDisk),
    /// The log with its ledger, of a replica that stopped after its last flush. All of the log was synced.
    Log(StoppedLog<MemDisk>),
}

/// The state of a replica that is down: what is left of it, and the summary of its log.
#[derive(Drop)]
pub(crate) struct Stopped {
    pub(crate) left: Left,
    pub(crate) summary: LogSummary,
}

/// Returns the state of a replica that never booted: an empty disk.
pub(crate) fn never_booted(alloc: Global) -> Result<Stopped, NoMemory>
    ensures { IfOk result (λ stopped. (me n : ℕ) → IsStopped me n stopped []) }
{
    empty_files_have_empty_logs();
    Ok(Stopped {
        left: Left::Disk(MemDisk::new(alloc, &[], None, 0)?),
        summary: NOTHING,
    })
}

/// Returns the summary of a ledger.
pub(crate) fn summary_of(ledger: &Ledger) -> LogSummary
    ensures { (me n : ℕ) (log : Log) → LedgerStands me n ledger.now log → SumsUp result log }
{
    LogSummary {
        known: ledger.known().epoch,
        executed: ledger.executed_len(),
    }
}

/// Returns the disk as a crash leaves it.
pub(crate) fn image_of_disk(disk: MemDisk) -> Result<MemDisk, NoMemory>
    ensures { IfOk result (λ image. (me n : ℕ) (log : Log) → HasLog me n (image_of disk.first disk.calls disk.fill) log → IsDisk me n image log) }
{
    Ok(disk.into_image()?)
}

/// Returns the state that a crash of a shell leaves. Pending steps are lost.
pub(crate) fn stopped_by(shell: Shell<MemDisk>) -> Result<Stopped, NoMemory>
    requires { ∥ IsSomeUp shell ∥₁ }
    ensures stands { IfOk result (λ stopped. (me n : ℕ) (r : Replica) → IsUpAs me n shell r.log r [] → IsStopped me n stopped r.log) }
    ensures some { IfOk result (λ stopped. (me n : ℕ) → IsUp me n shell → HasSomeLeft me n stopped.left) }
{
    let summary = summary_of(shell.state());
    if shell.pending() > 0 {
        let disk = image_of_disk(shell.into_disk())?;
        return Ok(Stopped {
            left: Left::Disk(disk),
            summary,
        });
    }
    Ok(Stopped {
        left: Left::Log(shell.into_log()),
        summary,
    })
}
