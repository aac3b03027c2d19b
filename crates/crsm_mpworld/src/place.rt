//! A simulated replica with its disk.

ghost use Rattle.std.specs.Prelude.{◌≡◌, ◌<◌, ◌≤◌, ◌^◌, None, false};
ghost use Rattle.crsm_disk.specs.Memory.{good_left};
ghost use Rattle.crsm_log.specs.Words.{disk_of, has_failed};
ghost use Rattle.crsm_mpworld.specs.Disks.{IsSomeOn};

use crsm_base::Bytes;
use crsm_disk::MemDisk;
use crsm_log::Log;
use crsm_mpcore::MpCore;
use std::alloc::Global;

/// A replica and its log, on a disk whose calls do not fail. All of the log is synced, so a crash leaves it as it is,
/// and the core stays in memory while the replica is down. After an error the machine is spent.
#[derive(Drop)]
pub(crate) struct Machine {
    pub(crate) alloc: Global,
    pub(crate) core: MpCore,
    pub(crate) log: Log<MemDisk>,
    pub(crate) is_spent: bool,
    /// The last log body: only its memory is used.
    pub(crate) body: Bytes,
    ghost unfailed: { is_spent ≡ false → has_failed log ≡ false },
    ghost well: { is_spent ≡ false → good_left (disk_of log) ≡ None },
    ghost stands: { is_spent ≡ false → ∥ IsSomeOn core log ∥₁ },
}

/// A simulated replica: up or down. After an error its fields are unspecified.
#[derive(Drop)]
pub(crate) struct Site {
    pub(crate) me: u32,
    pub(crate) n: u32,
    pub(crate) machine: Machine,
    pub(crate) is_up: bool,
    ghost mine: { me < n },
    ghost most: { n ≤ 15 },
}

/// A boot: its number, and the length of its log body in bytes.
#[derive(Clone, Copy)]
pub(crate) struct BootSize {
    pub(crate) count: u64,
    pub(crate) size: u64,
    ghost small: { size < 2 ^ 63 },
}
