//! A log writes each body behind a closed gate, syncs it, and opens the gate, so that after a crash the body is there
//! whole or not at all.

ghost use Rattle.std.specs.Prelude.{◌≡◌, ◌≢◌, ◌+◌, ◌^◌, ◌<◌, ◌≤◌, ◌↔◌, ◌∷◌, [], ◌++◌, ℕ, length, true, false, IsTrue, IfOk, IfErr, OnOk, OnErr, IsErr, IsErrOf, Some};
ghost use Rattle.crsm_port_faults.specs.Counts.{Rose};
ghost use Rattle.crsm_port_faults.specs.Plan.{Plan};
ghost use Rattle.crsm_disk.specs.Contract.{Arms};
ghost use Rattle.crsm_disk.specs.Meaning.{LeavesOnly, Meaning, Only, Same};
ghost use Rattle.crsm_log.specs.Format.{reading, found, bodies_of, cluster_of};
ghost use Rattle.crsm_log.specs.Log.{HasCluster, IsPast, IsSound, IsBeforeOrAfter, Goes, StopsAt, Used, put_calls, recorded, Mounts, Refuses};

use crate::device::{read_log, write_body};
use crate::entry::{body_end, encode_entry};
use crate::errors::{MountError, PutError};
use crsm_base::{Bodies, Failed, NoMemory};
use crsm_disk::Disk;
use std::alloc::Global;

/// A log on a disk. `end` is the offset of its closed gate.
#[derive(Drop)]
pub struct Log<D: Disk> {
    disk: D,
    end: u64,
    failed: bool,
    /// The last entry: only its memory is used.
    buffer: Vec<u8>,
    ghost small: { end ≤ 2 ^ 62 },
    ghost sound: { IsSound (D.meaning disk) end failed },
}

impl<D: Disk> Log<D> {
    /// Mounts a disk, and returns the log and the bodies that were put on it, without a cluster entry. A crash at any
    /// moment leaves those bodies. An error comes with the disk as the last call left it: `BadGate` if an open gate has
    /// no entry, `DiskFault` if the disk failed, `NoMemory` if memory runs out.
    pub fn mount(alloc: Global, disk: D) -> Result<(Log<D>, Bodies), (MountError, D)>
        ensures log { IfOk result (λ r. r.0.failed ≡ false) }
        ensures ok { IfOk result (λ r. Mounts (D.meaning disk) (D.meaning r.0.disk) r.0.end r.1) }
        ensures err { IfErr result (λ e. Refuses (D.meaning disk) (D.meaning e.1) e.0) }
    {
        let mut disk = disk;
        match read_log(alloc, &mut disk, 3, 1) {
            Ok(held) => Ok((
                Log {
                    disk,
                    end: held.gate,
                    failed: false,
                    buffer: Vec::new(alloc),
                },
                held.bodies,
            )),
            Err(why) => Err((why, disk)),
        }
    }

    /// Appends a body. After `Ok` every later crash leaves it. `Full` if its entry would end past the limit or the body
    /// has 2^31 bytes or more, `DiskFault` if the disk failed, `Failed` if it failed before, `NoMemory` if memory runs
    /// out.
    pub fn put(&mut self, alloc: Global, body: &[u8]) -> Result<(), PutError>
        requires { 0 < length body.now }

        // After an earlier fault, or past the limit, the disk is not called.
        ensures failed { IsErrOf result PutError.Failed ↔ (self.old.failed ≡ true) }
        ensures full { (end : ℕ) → IsErrOf result (PutError.Full end)
            ↔ ((self.old.failed ≡ false) × (end ≡ self.old.end + 6 + length body.now) × IsPast self.old.end (length body.now)) }

        ensures goes { Goes (D.meaning self.old.disk) (D.meaning self.new.disk) }
        ensures fault { IsErrOf result PutError.DiskFault → Rose (D.meaning self.old.disk).faults (D.meaning self.new.disk).faults }
        ensures becomes { IsErrOf result PutError.DiskFault → self.new.failed ≡ true }
        ensures stays { (IsErrOf result PutError.DiskFault → ⊥) → self.new.failed ≡ self.old.failed }

        // After `Ok` the body follows the others, by four calls of the disk and no more.
        ensures acknowledged { IsTrue (D.meaning self.old.disk).honest → OnOk result (reading (D.meaning self.new.disk).seen ≡ found (bodies_of (D.meaning self.old.disk).seen ++ body.now ∷ [])) }
        ensures durable { IsTrue (D.meaning self.old.disk).honest → OnOk result (Only (D.meaning self.new.disk).seen (D.meaning self.new.disk).may_leave) }
        ensures calls { OnOk result ((D.meaning self.new.disk).history ≡ recorded (put_calls self.old.end body.now) (D.meaning self.old.disk).history) }
        ensures place { OnOk result (self.new.end ≡ self.old.end + 5 + length body.now) }
        ensures four { (p : Plan) → IsTrue (D.meaning self.old.disk).honest → (D.meaning self.old.disk).plan ≡ Some p → OnOk result (Used 4 p (D.meaning self.new.disk).plan) }

        // At a fault, those of the four calls were made that succeeded. At another error none was.
        ensures stops { IsErrOf result PutError.DiskFault → StopsAt (put_calls self.old.end body.now) (λ _. IsTrue (D.meaning self.old.disk).honest) (D.meaning self.old.disk) (D.meaning self.new.disk) }
        ensures none { IsErr result → (IsErrOf result PutError.DiskFault → ⊥) → Same (D.meaning self.old.disk) (D.meaning self.new.disk) × (self.new.end ≡ self.old.end) }

        // A crash at any moment of the call leaves the bodies from before it, with or without this one.
        ensures any_moment { IsTrue (D.meaning self.old.disk).honest → self.old.failed ≡ false
            → LeavesOnly (D.meaning self.old.disk) (D.meaning self.new.disk) (IsBeforeOrAfter (bodies_of (D.meaning self.old.disk).seen) body.now) }

        // The log belongs to the same cluster as before.
        ensures cluster { IsTrue (D.meaning self.old.disk).honest → self.old.failed ≡ false
            → LeavesOnly (D.meaning self.old.disk) (D.meaning self.new.disk) (HasCluster (cluster_of (D.meaning self.old.disk).seen)) }
    {
        if self.failed {
            return Err(PutError::Failed);
        }
        let length = body.len() as u64;
        let Some(end) = body_end(self.end, length) else {
            return Err(PutError::Full {
                end: self.end + 6 + length,
            });
        };
        encode_entry(alloc, body, &mut self.buffer)?;
        self.disk.reserve(4, self.buffer.len() as u64 + 1)?;
        match write_body(&mut self.disk, self.end, &self.buffer) {
            Ok(()) => {
                self.end = end - 1;
                Ok(())
            }
            Err(Failed) => {
                self.failed = true;
                Err(PutError::DiskFault)
            }
        }
    }

    /// Makes a disk that can be stopped fail after `stop` further calls; ranges that were not synced then read as
    /// `fill`.
    pub fn arm(&mut self, stop: Option<u64>, fill: u8)
        ensures armed { Arms stop fill (D.meaning self.old.disk) (D.meaning self.new.disk) }
        ensures same { (self.new.end ≡ self.old.end) × (self.new.failed ≡ self.old.failed) }
    {
        self.disk.arm(stop, fill);
    }

    /// Returns the disk as the last call left it.
    pub fn into_disk(self) -> D
        ensures { result ≡ self.disk }
    {
        self.disk
    }
}
