//! Claiming a log for a cluster: an entry of its own kind, which is no body, names the cluster.

ghost use Rattle.std.specs.Prelude.{◌≡◌, ◌≢◌, ◌+◌, ◌^◌, ◌≤◌, ℕ, IsTrue, IfOk, IfErr, OnOk, IsErrOf, true};
ghost use Rattle.std.specs.Bool.{OnTrue};
ghost use Rattle.crsm_port_faults.specs.Counts.{Rose};
ghost use Rattle.crsm_disk.specs.Meaning.{LeavesOnly, Meaning};
ghost use Rattle.crsm_log.specs.Log.{Goes};
ghost use Rattle.crsm_log.specs.Claim.{Claims, Forbids, IsClaimedOrBefore, IsOpenTo, RefusesClaim, wants_entry};

use crate::device::{read_log, write_cluster};
use crate::entry::{CLUSTER_BYTES, end_of};
use crate::errors::ClaimError;
use crsm_disk::Disk;
use std::alloc::Global;

// Writes and syncs of a claim: the first sync, two calls that write a closed gate, and the four of an entry.
const CALLS: u64 = 7;

// Bytes that a claim writes: a closed gate, an entry of 13 bytes after its gate, and the gate again.
const BYTES: u64 = 15;

/// Claims the log on a disk for a cluster. A log that names no cluster, like those written before clusters had numbers,
/// gets an entry that names this one. Number 0 stands for no cluster: the claim succeeds if the log names none, and
/// writes no entry. A log of another cluster is refused, and the file is unchanged.
///
/// # Errors
/// `OtherCluster` if the log names another cluster, `BadGate` if an open gate has no entry, with the number of bodies
/// before it, `Full` if its entry would end past the limit, `NoMemory` before any byte is written, and `DiskFault` if
/// the disk failed.
pub fn claim<D: Disk>(alloc: Global, disk: &mut D, cluster: u64) -> Result<(), ClaimError>
    ensures goes { Goes (D.meaning disk.old) (D.meaning disk.new) }
    ensures fault { IsErrOf result ClaimError.DiskFault → Rose (D.meaning disk.old).faults (D.meaning disk.new).faults }
    ensures ok { IsTrue (D.meaning disk.old).honest → OnOk result (Claims (D.meaning disk.old) (D.meaning disk.new) cluster) }
    ensures err { IsTrue (D.meaning disk.old).honest → IfErr result (RefusesClaim (D.meaning disk.old) (D.meaning disk.new) cluster) }

    // A crash at any moment of the call leaves the same bodies, and the cluster from before or the claimed one.
    ensures any_moment { IsTrue (D.meaning disk.old).honest → LeavesOnly (D.meaning disk.old) (D.meaning disk.new) (IsClaimedOrBefore (D.meaning disk.old) cluster) }
{
    let held = read_log(alloc, disk, CALLS, BYTES)?;
    if !asks_for_entry(held.gate, held.cluster, cluster)? {
        return Ok(());
    }
    write_cluster(disk, held.gate, cluster)?;
    Ok(())
}

// Returns whether a log that names the cluster `named`, or none, needs an entry for `cluster`.
fn asks_for_entry(gate: u64, named: Option<u64>, cluster: u64) -> Result<bool, ClaimError>
    requires { gate ≤ 2 ^ 62 }
    ensures open_to { IfOk result (λ wants. IsOpenTo cluster named) }
    ensures wants { IfOk result (λ wants. wants ≡ wants_entry named cluster) }
    ensures inside { IfOk result (λ wants. OnTrue wants (gate ≤ 2 ^ 32)) }
    ensures forbids { IfErr result (Forbids gate named cluster) }
{
    match named {
        Some(found) if found == cluster => Ok(false),
        Some(found) => Err(ClaimError::OtherCluster { found }),
        None if cluster == 0 => Ok(false),
        None => match end_of(gate, CLUSTER_BYTES) {
            Some(_end) => Ok(true),
            None => Err(ClaimError::Full { end: gate + 14 }),
        },
    }
}
