//! A step that stops during its put.

ghost use Rattle.std.specs.Prelude.{◌≡◌, ◌≤◌, ◌++◌, ◌∷◌, [], ℕ, List, IfOk, IfSome};
ghost use Rattle.std.specs.List.{AllByRecursion};
ghost use Rattle.crsm_core.specs.Core.{FitsSent};
ghost use Rattle.crsm_ledger.specs.Recovered.{with_records};
ghost use Rattle.crsm_spec.specs.Log.{Log};
ghost use Rattle.crsm_spec.specs.Moments.{is_kept};
ghost use Rattle.crsm_spec.specs.Replica.{Replica};
ghost use Rattle.crsm_spec.specs.Draft.{Draft};
ghost use Rattle.crsm_spec.specs.Node.{turn};
ghost use Rattle.crsm_sim_machine.specs.Arriving.{turn_of};
ghost use Rattle.crsm_sim_machine.specs.Outcomes.{LeavesCut, is_cut_kept, log_after};
ghost use Rattle.crsm_sim_machine.specs.States.{HasSomeLeft, HasSomeLog, IsDisk, IsSomeUp, IsUp, IsUpAs, WhereStepped};

use crate::arrival::Arrival;
use crate::sink_port::SinkPort;
use crate::step::Step;
use crate::stopped::{Left, Stopped, image_of_disk, summary_of};
use crate::turn::take;
use crsm_base::NoMemory;
use crsm_disk::MemDisk;
use crsm_shell::{Shell, TurnError};

/// The point where a put stops: after `calls` calls of the disk, with the byte `fill` in the ranges that were not
/// synced.
#[derive(Clone, Copy)]
pub(crate) struct PutStop {
    pub(crate) calls: u64,
    pub(crate) fill: u8,
}

/// The byte of an open gate.
const OPEN: u8 = 1;

/// Returns whether a put that stops there is durable: all four calls were made, or three and its gate reads as open.
#[tactic(auto, unfolding(crsm_spec::specs::Moments::is_kept))]
fn keeps(stop: PutStop) -> bool
    ensures { result ≡ is_kept stop.calls stop.fill }
{
    if stop.calls == 4 {
        return true;
    }
    if stop.calls != 3 {
        return false;
    }
    stop.fill == OPEN
}

/// Returns whether a step that stops there is durable. One without records is not.
#[tactic(auto, unfolding(crate::specs::Outcomes::is_cut_kept))]
fn is_kept_at(stop: PutStop, step: &Step) -> bool
    ensures { (x : Draft) → step.now.batch.records ≡ x.batch → result ≡ is_cut_kept stop.calls stop.fill x }
{
    if !keeps(stop) {
        return false;
    }
    !step.batch.records.as_slice().is_empty()
}

/// Returns the disk of a shell whose put stops there.
fn stopped_disk(shell: Shell<MemDisk>, stop: PutStop) -> Result<MemDisk, NoMemory>
    requires calls { stop.calls ≤ 4 }
    requires up { ∥ IsSomeUp shell ∥₁ }
    ensures stands { IfOk result (λ disk. WhereStepped shell (λ me n kept x. IsDisk me n disk (log_after stop.calls stop.fill kept x))) }
    ensures log { IfOk result (λ disk. (me n : ℕ) → IsUp me n shell → HasSomeLog me n disk) }
{
    let mut shell = shell;
    let mut port = SinkPort { empties: 0 };
    shell.arm(Some(stop.calls), stop.fill);
    match shell.flush(&mut port) {
        Ok(()) => Ok(image_of_disk(shell.into_disk())?),
        Err(TurnError::DiskFault) => Ok(image_of_disk(shell.into_disk())?),
        Err(TurnError::Failed) => unreachable!(),
        Err(TurnError::PortFault) => unreachable!(),
        // The log has no room for the records.
        Err(TurnError::LogFull) => {
            drop(shell);
            Err(NoMemory)
        }
        Err(TurnError::NoMemory) => {
            drop(shell);
            Err(NoMemory)
        }
    }
}

/// Runs one step that stops there, and returns what it leaves, with the output of the step if that is durable.
pub(crate) fn cut(
    shell: Shell<MemDisk>,
    stop: PutStop,
    arrival: Arrival<'_>,
    reading: u64,
) -> Result<(Option<Step>, Stopped), NoMemory>
    requires calls { stop.calls ≤ 4 }
    requires up { ∥ IsSomeUp shell ∥₁ }
    ensures stands { IfOk result (λ cut. (me n : ℕ) (r : Replica) → IsUpAs me n shell r.log r [] → LeavesCut stop.calls stop.fill me n r (turn r (turn_of arrival.entry, reading)) cut.0 cut.1) }
    ensures spelt { IfOk result (λ cut. IfSome cut.0 (λ step. AllByRecursion FitsSent step.batch.sends)) }
    ensures some { IfOk result (λ cut. (me n : ℕ) → IsUp me n shell → HasSomeLeft me n cut.1.left) }
{
    let mut shell = shell;
    let before = summary_of(shell.state());
    let Ok(step) = take(&mut shell, arrival, reading) else {
        drop(shell);
        return Err(NoMemory);
    };
    let after = summary_of(shell.state());
    let Ok(disk) = stopped_disk(shell, stop) else {
        drop(step);
        return Err(NoMemory);
    };
    if is_kept_at(stop, &step) {
        return Ok((
            Some(step),
            Stopped {
                left: Left::Disk(disk),
                summary: after,
            },
        ));
    }
    drop(step);
    Ok((
        None,
        Stopped {
            left: Left::Disk(disk),
            summary: before,
        },
    ))
}
