//! What a replica that stopped leaves.

ghost use Rattle.std.specs.Prelude.{◌≡◌, false};
ghost use Rattle.crsm_log.specs.Words.{has_failed};
ghost use Rattle.crsm_shell.specs.Beginning.{IsLedgerOfOne};

use crsm_disk::Disk;
use crsm_ledger::Ledger;
use crsm_log::Log;

/// The mounted log of a replica that stopped with no pending step, and the ledger of that log.
#[derive(Drop)]
pub struct StoppedLog<D: Disk> {
    pub(crate) log: Log<D>,
    pub(crate) ledger: Ledger,
    ghost well: { has_failed log ≡ false },
    ghost stands: { ∥ IsLedgerOfOne ledger ∥₁ },
}
