//! The boot of a replica that stopped, on the log that it left and the ledger of it.

ghost use Rattle.std.specs.Prelude.{◌≡◌, ℕ, length, false, IsTrue, IfOk, IfErr};
ghost use Rattle.crsm_log.specs.Log.{MeetsIn};
ghost use Rattle.crsm_spec.specs.Log.{Log as LogOnPaper};
ghost use Rattle.crsm_shell.specs.Again.{BootsAgain, IsStoppedLog, disk_in};
ghost use Rattle.crsm_shell.specs.Shell.{WhereStands};
ghost use Rattle.crsm_shell.specs.Words.{disk_of, has_failed, peers_of};

use crate::begin::begin_on;
use crate::boot::keep_boot;
use crate::errors::BootError;
use crate::shell::Shell;
use crate::stopped::StoppedLog;
use crsm_base::{Bodies, Lines};
use crsm_disk::Disk;
use std::alloc::Global;

/// A replica that booted again.
#[derive(Drop)]
pub struct BootedAgain<D: Disk> {
    pub shell: Shell<D>,
    /// The lines of the boot's records.
    pub lines: Lines,
    /// The length in bytes of these records in the log.
    pub size: u64,
}

impl<D: Disk> Shell<D> {
    /// Stops the replica, and returns its log with the ledger of it. Pending steps must be none: their records are in
    /// the ledger, and not in the log.
    #[tactic(auto, unfolding(crate::specs::Shell::ShellStands))]
    pub fn into_log(self) -> StoppedLog<D>
        requires { has_failed self ≡ false }
        ensures stands { WhereStands D.meaning self (λ kept r steps. length steps ≡ 0 → IsStoppedLog result (D.meaning (disk_in result)) r.me r.n r.log) }
        ensures disk { disk_in result ≡ disk_of self }
    {
        let log = self.log;
        let ledger = Box::into_inner(self.core).into_ledger();
        StoppedLog { log, ledger }
    }

    /// Boots the replica on the log that it left, where replica `k` has the address `peers[k]`, IPv4 x 65,536 + port.
    /// The log is not read. The boot is recorded in it. An error returns the disk as the last call left it.
    pub fn boot_again(
        alloc: Global,
        peers: &[u64],
        left: StoppedLog<D>,
    ) -> Result<BootedAgain<D>, (BootError, D)>
        ensures boots { (me n : ℕ) (log : LogOnPaper) → IsStoppedLog left (D.meaning (disk_in left)) me n log →
            IfOk result (λ b. BootsAgain b (D.meaning (disk_in left)) (D.meaning (disk_of b.shell)) me n log) }
        ensures peers { IfOk result (λ b. peers_of b.shell ≡ peers.now) }
        ensures not_bad { IfErr result (λ e. (entry kind : ℕ) → e.0 ≡ BootError.BadLog entry kind → ⊥) }
        ensures meets { IsTrue (D.meaning (disk_in left)).honest → IfErr result (λ e. e.0 ≡ BootError.DiskFault →
            MeetsIn 4 (D.meaning (disk_in left)).plan) }
    {
        let StoppedLog { log, ledger } = left;
        let begun = match begin_on(alloc, peers, ledger) {
            Ok(begun) => begun,
            Err(why) => return Err((why, log.into_disk())),
        };
        match keep_boot(alloc, log, Bodies::new(alloc), begun) {
            Ok(booted) => Ok(BootedAgain {
                shell: booted.shell,
                lines: booted.lines,
                size: booted.size,
            }),
            Err(refused) => Err(refused),
        }
    }
}
