//! The boot from the bodies that a sheet begins with.

ghost use Rattle.std.specs.Prelude.{◌≡◌, ◌<◌, ◌≤◌, ℕ, [], IfOk, IfErr};
ghost use Rattle.crsm_ledger.specs.Ledger.{LedgerStands};
ghost use Rattle.crsm_ledger.specs.Recovered.{AreKept, IsBadAt};
ghost use Rattle.crsm_spec.specs.Clock.{u64_max};
ghost use Rattle.crsm_spec.specs.Log.{Log, boots};
ghost use Rattle.crsm_replica_rerun.specs.Stages.{BootsOn, IfBadLog};

use crate::error::RerunError;
use crsm_base::{Bodies, NoMemory};
use crsm_core::{Batch, Core, found_logs_fit};
use crsm_ledger::{Ledger, LedgerError};
use std::alloc::Global;

/// A replica that has booted, and the output of the boot.
#[derive(Drop)]
pub(crate) struct BootedCore {
    // On the heap, since it is large and its owner is moved.
    pub(crate) core: Box<Core>,
    pub(crate) batch: Batch,
}

/// Boots replica `me` of a cluster that began with `n` on a log with these bodies.
pub(crate) fn boot(
    alloc: Global,
    me: u32,
    n: u32,
    bodies: &Bodies,
) -> Result<BootedCore, RerunError>
    requires me_below { me < 15 }
    requires some { 1 ≤ n }
    requires few { n ≤ 15 }
    ensures booted { IfOk result (λ b. (log : Log) × AreKept me n [] bodies.now log × BootsOn me n log b.core.value b.batch) }
    ensures bad_log { IfErr result (λ e. IfBadLog e (IsBadAt me n bodies.now)) }
{
    found_logs_fit();
    let ledger = recovered(alloc, me, n, bodies)?;
    let mut core = Core::new(ledger)?;
    let batch = core.begin()?;
    let core = in_a_place(alloc, core)?;
    Ok(BootedCore { core, batch })
}

/// Moves the core to the heap. `NoMemory` if memory runs out.
fn in_a_place(alloc: Global, core: Core) -> Result<Box<Core>, NoMemory>
    ensures { IfOk result (λ boxed. boxed.value ≡ core) }
{
    Ok(Box::new(alloc, core)?)
}

/// Returns the ledger of the bodies. Its boots can be counted further: no memory has room for a log with 2^64 - 1
/// boots.
fn recovered(alloc: Global, me: u32, n: u32, bodies: &Bodies) -> Result<Ledger, RerunError>
    requires me_below { me < 15 }
    requires some { 1 ≤ n }
    requires few { n ≤ 15 }
    ensures whole { IfOk result (λ ledger. (log : Log) × AreKept me n [] bodies.now log × LedgerStands me n ledger log × (boots log < u64_max)) }
    ensures bad_log { IfErr result (λ e. IfBadLog e (IsBadAt me n bodies.now)) }
{
    match Ledger::recover(alloc, me, n, bodies) {
        Ok(ledger) => with_room(ledger),
        Err(LedgerError::BadLog { entry, why }) => Err(RerunError::BadLog { entry, why }),
        Err(LedgerError::NoMemory) => Err(RerunError::NoMemory),
        // Recovery never returns this error.
        Err(LedgerError::NotFit { .. }) => unreachable!(),
    }
}

/// Returns the ledger if one more boot can be counted.
fn with_room(ledger: Ledger) -> Result<Ledger, RerunError>
    ensures same { IfOk result (λ same. same ≡ ledger) }
    ensures room { IfOk result (λ _. (me n : ℕ) (log : Log) → LedgerStands me n ledger log → boots log < u64_max) }
    ensures refused { IfErr result (λ why. why ≡ RerunError.NoMemory) }
{
    if ledger.boot() == u64::MAX {
        return Err(RerunError::NoMemory);
    }
    Ok(ledger)
}
