//! The boot of a replica on the log of its disk.

ghost use Rattle.std.specs.Prelude.{◌≡◌, ◌≤◌, ◌<◌, [], length, false, IsTrue, IfOk, IfErr};
ghost use Rattle.crsm_disk.specs.Meaning.{LeavesOnly};
ghost use Rattle.crsm_ledger.specs.Recovered.{AreKept};
ghost use Rattle.crsm_log.specs.Format.{found, reading};
ghost use Rattle.crsm_log.specs.Log.{Goes};
ghost use Rattle.crsm_spec.specs.Log.{Log as LogOnPaper};
ghost use Rattle.crsm_log.specs.Words as logs;
ghost use Rattle.crsm_shell.specs.Booting.{AddsBoot, Boots, BootsOn, FailsToKeep, IsBooted, IsBootedOrBefore, IsLeftByBoot, RefusesBoot};
ghost use Rattle.crsm_shell.specs.Flushing.{KeptWell};
ghost use Rattle.crsm_shell.specs.Running.{IsOfOne};
ghost use Rattle.crsm_shell.specs.Shell.{WhereHasLog};
ghost use Rattle.crsm_shell.specs.Words.{disk_of, peers_of};

use crate::begin::{Begun, begin};
use crate::errors::BootError;
use crate::keep::keep;
use crate::shell::Shell;
use crsm_base::{Bodies, Bytes, Lines};
use crsm_codec::one_spelling_each;
use crsm_disk::Disk;
use crsm_log::Log;
use crsm_replica_io::Outbox;
use std::alloc::Global;

/// A booted replica.
#[derive(Drop)]
pub struct Booted<D: Disk> {
    pub shell: Shell<D>,
    /// The bodies that the log had before the boot.
    pub bodies: Bodies,
    /// The lines of the boot's records.
    pub lines: Lines,
    /// The length in bytes of these records in the log.
    pub size: u64,
}

impl<D: Disk> Shell<D> {
    /// Boots replica `me` of a cluster that began with `n`, where replica `k` has the address `peers[k]`, IPv4 x 65,536
    /// + port, on the log of its disk: an empty file is an empty log. The boot is recorded in the log. An error returns
    /// the disk as the last call left it.
    pub fn boot(
        alloc: Global,
        me: u32,
        n: u32,
        peers: &[u64],
        disk: D,
    ) -> Result<Booted<D>, (BootError, D)>
        requires me_below { me < 15 }
        requires some { 1 ≤ n }
        requires few { n ≤ 15 }
        requires addresses { n ≤ length peers.now }
        requires few_addresses { length peers.now ≤ 15 }
        requires own_address { me < length peers.now }

        // The boot of the definitions, on the log that was found.
        ensures found { IfOk result (λ b. (log : LogOnPaper) × AreKept me n [] b.bodies log) }
        ensures boots { IfOk result (λ b. (log : LogOnPaper) → AreKept me n [] b.bodies log → Boots b (D.meaning (disk_of b.shell)) me n log) }
        ensures bodies { IsTrue (D.meaning disk).honest → IfOk result (λ b. reading (D.meaning disk).seen ≡ found b.bodies) }
        ensures stands { WhereHasLog me n (D.meaning disk) (λ log. IfOk result (λ b. Boots b (D.meaning (disk_of b.shell)) me n log × BootsOn me n log (D.meaning disk) (D.meaning (disk_of b.shell)))) }
        ensures peers { IfOk result (λ b. peers_of b.shell ≡ peers.now) }
        ensures goes { IfOk result (λ b. Goes (D.meaning disk) (D.meaning (disk_of b.shell))) }
        ensures added { IsTrue (D.meaning disk).honest → IfOk result (λ b. AddsBoot me n b (D.meaning disk) (D.meaning (disk_of b.shell))) }

        // The reason of a refusal.
        ensures refused { IfErr result (λ e. RefusesBoot me n (D.meaning disk) (D.meaning e.1) e.0) }

        // A crash at any moment leaves the log as it was, or with the boot appended.
        ensures any_moment { WhereHasLog me n (D.meaning disk) (λ log. IfOk result (λ b. LeavesOnly (D.meaning disk) (D.meaning (disk_of b.shell)) (IsBootedOrBefore me n log (D.meaning disk)))) }
        ensures any_moment_refused { WhereHasLog me n (D.meaning disk) (λ log. IfErr result (λ e. LeavesOnly (D.meaning disk) (D.meaning e.1) (IsBootedOrBefore me n log (D.meaning disk)))) }
        ensures left { IsTrue (D.meaning disk).honest → IfOk result (λ b. LeavesOnly (D.meaning disk) (D.meaning (disk_of b.shell)) (IsLeftByBoot me n (D.meaning disk))) }
        ensures left_refused { IsTrue (D.meaning disk).honest → IfErr result (λ e. LeavesOnly (D.meaning disk) (D.meaning e.1) (IsLeftByBoot me n (D.meaning disk))) }
    {
        one_spelling_each();
        let (log, bodies) = match Log::mount(alloc, disk) {
            Ok(mounted) => mounted,
            Err((why, disk)) => return Err((BootError::from(why), disk)),
        };
        match begin(alloc, me, n, peers, &bodies) {
            Ok(begun) => keep_boot(alloc, log, bodies, begun),
            Err(why) => Err((why, log.into_disk())),
        }
    }
}

/// Puts the boot on the log of these bodies.
pub(crate) fn keep_boot<D: Disk>(
    alloc: Global,
    log: Log<D>,
    bodies: Bodies,
    begun: Begun,
) -> Result<Booted<D>, (BootError, D)>
    requires well { logs.has_failed log ≡ false }
    requires room { length begun.buffer.items ≡ 8192 }
    requires stands { ∥ IsOfOne begun.core.value ∥₁ }
    ensures kept { IfOk result (λ b. IsBooted b begun bodies × KeptWell (logs.gate_of log) begun.body (D.meaning (logs.disk_of log)) (D.meaning (disk_of b.shell))) }
    ensures not_kept { IfErr result (λ e. FailsToKeep (logs.gate_of log) begun.body (D.meaning (logs.disk_of log)) (D.meaning e.1) e.0) }
{
    let mut log = log;
    match keep(&mut log, alloc, begun.body.as_slice()) {
        Ok(()) => {
            let size = begun.body.as_slice().len() as u64;
            let shell = Shell {
                alloc,
                core: begun.core,
                log,
                peers: begun.peers,
                buffer: begun.buffer,
                body: Bytes::new(alloc),
                outbox: Outbox::new(alloc),
                pending: 0,
                failed: false,
            };
            Ok(Booted {
                shell,
                bodies,
                lines: begun.lines,
                size,
            })
        }
        Err(why) => Err((BootError::of_put(why), log.into_disk())),
    }
}
