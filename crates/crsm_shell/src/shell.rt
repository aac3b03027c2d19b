//! The state of one running replica.

ghost use Rattle.std.specs.Prelude.{◌≡◌, false, length};
ghost use Rattle.crsm_log.specs.Words.{has_failed};
ghost use Rattle.crsm_shell.specs.Running.{IsOfOne};

use crsm_base::Bytes;
use crsm_core::Core;
use crsm_disk::Disk;
use crsm_log::Log;
use crsm_replica_io::Outbox;
use std::alloc::Global;

/// One running replica over its disk. Once the disk failed, the log was full or memory ran out, it has failed
/// permanently, and a new one must be booted on the disk.
#[derive(Drop)]
pub struct Shell<D: Disk> {
    pub(crate) alloc: Global,
    // On the heap, since it is large and a shell is moved.
    pub(crate) core: Box<Core>,
    pub(crate) log: Log<D>,
    // The address of each replica, IPv4 x 65,536 + port.
    pub(crate) peers: Vec<u64>,
    // The buffer in which datagrams are received and read.
    pub(crate) buffer: Vec<u8>,
    // The records and the datagrams of the pending steps.
    pub(crate) body: Bytes,
    pub(crate) outbox: Outbox,
    pub(crate) pending: u32,
    pub(crate) failed: bool,
    ghost well: { failed ≡ false → has_failed log ≡ false },
    ghost room: { length buffer.items ≡ 8192 },
    ghost stands: { failed ≡ false → ∥ IsOfOne core.value ∥₁ },
}
