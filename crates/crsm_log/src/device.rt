//! The disk calls of a log.

ghost use Rattle.std.specs.Prelude.{◌≡◌, ◌+◌, ◌-◌, ◌^◌, ◌<◌, ◌≤◌, ℕ, List, [], ◌∷◌, length, IsTrue, IfOk, IfErr, IfSome, OnOk, IsErrOf, Some, None, slice_index};
ghost use Rattle.crsm_port_image.specs.Bytes.{overwritten, Torn};
ghost use Rattle.crsm_port_faults.specs.Counts.{Rose};
ghost use Rattle.crsm_port_faults.specs.Plan.{Plan, spent};
ghost use Rattle.crsm_port_image.specs.Calls.{wrote, synced};
ghost use Rattle.crsm_disk.specs.Contract.{Renews};
ghost use Rattle.crsm_disk.specs.Meaning.{LeavesOnly};
ghost use Rattle.crsm_log.specs.Format.{Entry, body_entry, bodies_of, cluster_entry, cluster_of, entries_of};
ghost use Rattle.crsm_log.specs.Claim.{Holds, IsClaimed, AddsCluster, WhereUnclaimed};
ghost use Rattle.crsm_log.specs.Log.{HasCluster, IsBeforeOrAfter, IsAsBefore, IsWithOrWithout, entry_bytes, entry_calls, Goes, Ran, HasPlace, ServesPut, put_calls, Mounts, Refuses, Fetches, MeetsIn, less, AddsBody, AddsEntry, IsDurable, WhereBodyMayStand, WhereEntryMayStand};
ghost use Rattle.crsm_log.specs.declared.errors.MountError.TheVariants.{DiskFault, BadGate};

use crate::entry::{LogContents, cluster_entry_of, read_entries};
use crate::errors::MountError;
use crsm_base::{Bodies, Failed, NoMemory};
use crsm_disk::Disk;
use std::alloc::Global;

// Writes and syncs.
pub(crate) fn write_and_sync<D: Disk>(disk: &mut D, at: u64, bytes: &[u8]) -> Result<(), Failed>
    ensures ran { Ran (wrote at bytes.now ∷ synced ∷ []) (HasPlace 2 ((at - length (D.meaning disk.old).seen) + length bytes.now)) (D.meaning disk.old) (D.meaning disk.new) result }
    ensures plan { (p : Plan) → (D.meaning disk.old).plan ≡ Some p
        → OnOk result ((D.meaning disk.new).plan ≡ Some (spent 1 0 (spent 1 ((at - length (D.meaning disk.old).seen) + length bytes.now) p))) }
    ensures written { IsTrue (D.meaning disk.old).honest → OnOk result ((D.meaning disk.new).seen ≡ overwritten (D.meaning disk.old).seen at bytes.now) }
    ensures durable { IsTrue (D.meaning disk.old).honest → OnOk result (IsDurable (D.meaning disk.new)) }
    ensures any_moment { IsTrue (D.meaning disk.old).honest → IsDurable (D.meaning disk.old) → LeavesOnly (D.meaning disk.old) (D.meaning disk.new) (Torn at (length bytes.now) (D.meaning disk.old).seen) }
{
    disk.write_at(at, bytes)?;
    disk.sync()?;
    Ok(())
}

// Writes an entry after the closed gate at this offset, and then opens the gate.
pub(crate) fn write_entry<D: Disk>(disk: &mut D, gate: u64, bytes: &[u8]) -> Result<(), Failed>
    requires { gate < 2 ^ 33 }
    ensures ran { (e : Entry) → bytes.now ≡ entry_bytes e
        → Ran (entry_calls gate e) (ServesPut gate (length bytes.now + 1) (D.meaning disk.old)) (D.meaning disk.old) (D.meaning disk.new) result }
    ensures left { (p : Plan) → (D.meaning disk.old).plan ≡ Some p → OnOk result ((q : Plan) × ((D.meaning disk.new).plan ≡ Some q) × (q.good ≡ less 4 p.good)) }
    ensures settled { WhereEntryMayStand bytes.now (D.meaning disk.old) gate (λ e. OnOk result (AddsEntry (D.meaning disk.old) (D.meaning disk.new) gate e)) }
    ensures any_moment { WhereEntryMayStand bytes.now (D.meaning disk.old) gate (λ e. LeavesOnly (D.meaning disk.old) (D.meaning disk.new) (IsWithOrWithout (entries_of (D.meaning disk.old).seen) e)) }
{
    write_and_sync(disk, gate + 1, bytes)?;
    write_and_sync(disk, gate, &[1])?;
    Ok(())
}

// Writes a body as an entry.
pub(crate) fn write_body<D: Disk>(disk: &mut D, gate: u64, bytes: &[u8]) -> Result<(), Failed>
    requires { gate < 2 ^ 33 }
    ensures ran { (body : List ℕ) → bytes.now ≡ entry_bytes (body_entry body)
        → Ran (put_calls gate body) (ServesPut gate (length bytes.now + 1) (D.meaning disk.old)) (D.meaning disk.old) (D.meaning disk.new) result }
    ensures left { (p : Plan) → (D.meaning disk.old).plan ≡ Some p → OnOk result ((q : Plan) × ((D.meaning disk.new).plan ≡ Some q) × (q.good ≡ less 4 p.good)) }
    ensures settled { WhereBodyMayStand bytes.now (D.meaning disk.old) gate (λ body. OnOk result (AddsBody (D.meaning disk.old) (D.meaning disk.new) gate body)) }
    ensures any_moment { WhereBodyMayStand bytes.now (D.meaning disk.old) gate (λ body. LeavesOnly (D.meaning disk.old) (D.meaning disk.new) (IsBeforeOrAfter (bodies_of (D.meaning disk.old).seen) body)) }
    ensures cluster { WhereBodyMayStand bytes.now (D.meaning disk.old) gate (λ body. LeavesOnly (D.meaning disk.old) (D.meaning disk.new) (HasCluster (cluster_of (D.meaning disk.old).seen))) }
{
    write_entry(disk, gate, bytes)
}

// Writes a cluster entry.
pub(crate) fn write_cluster<D: Disk>(disk: &mut D, gate: u64, cluster: u64) -> Result<(), Failed>
    requires { gate < 2 ^ 33 }
    ensures ran { Ran (entry_calls gate (cluster_entry cluster)) (ServesPut gate 14 (D.meaning disk.old)) (D.meaning disk.old) (D.meaning disk.new) result }
    ensures left { (p : Plan) → (D.meaning disk.old).plan ≡ Some p → OnOk result ((q : Plan) × ((D.meaning disk.new).plan ≡ Some q) × (q.good ≡ less 4 p.good)) }
    ensures settled { WhereUnclaimed cluster (D.meaning disk.old) gate (OnOk result (AddsCluster (D.meaning disk.old) (D.meaning disk.new) gate cluster)) }
    ensures any_moment { WhereUnclaimed cluster (D.meaning disk.old) gate (LeavesOnly (D.meaning disk.old) (D.meaning disk.new) (IsClaimed (D.meaning disk.old).seen cluster)) }
{
    write_entry(disk, gate, &cluster_entry_of(cluster))
}

// Makes the last open gate last. Where a sync of it failed, a read shows it open that is still closed on the disk; its
// entry is there, and so are the gates before it, since each was synced before the next entry was written.
fn renew_last<D: Disk>(disk: &mut D, last: Option<u64>) -> Result<(), Failed>
    requires { IsTrue (D.meaning disk.old).honest → IfSome last (λ at. slice_index (D.meaning disk.old).seen at ≡ 1) }
    ensures { Renews last (D.meaning disk.old) (D.meaning disk.new) result }
{
    match last {
        Some(at) => disk.renew(at, 1),
        None => Ok(()),
    }
}

// Longer files are not read: no memory has room for them.
const LONGEST: u64 = 1 << 62;

// Reads all bytes of the disk, syncs it, and reserves room for `calls` writes and syncs of `written` bytes.
fn contents<D: Disk>(
    alloc: Global,
    disk: &mut D,
    calls: u64,
    bytes: u64,
) -> Result<Vec<u8>, MountError>
    requires { 1 ≤ calls }
    ensures goes { Goes (D.meaning disk.old) (D.meaning disk.new) }
    ensures any_moment { IsTrue (D.meaning disk.old).honest → LeavesOnly (D.meaning disk.old) (D.meaning disk.new) (IsAsBefore (D.meaning disk.old)) }
    ensures ok { IfOk result (λ file. Fetches (calls - 1) bytes (D.meaning disk.old) (D.meaning disk.new) file.items) }
    ensures small { IfOk result (λ file. length file.items ≤ LONGEST) }
    ensures fault { IsErrOf result MountError.DiskFault → Rose (D.meaning disk.old).faults (D.meaning disk.new).faults }
    ensures meets { IsErrOf result MountError.DiskFault → MeetsIn 3 (D.meaning disk.old).plan }
    ensures unwritten { IsTrue (D.meaning disk.old).honest → (D.meaning disk.new).seen ≡ (D.meaning disk.old).seen }
    ensures no_gate { (entry : ℕ) → IsErrOf result (MountError.BadGate entry) → ⊥ }
{
    disk.reserve(calls, bytes)?;
    disk.sync()?;
    let len = disk.len()?;
    if len > LONGEST {
        return Err(MountError::NoMemory);
    }
    let mut file = Vec::from_elem(alloc, 0u8, len as usize)?;
    let count = disk.read_at(0, &mut file)?;
    file.truncate(count);
    Ok(file)
}

// Reads what the disk holds, and makes the last open gate last. A file too short for an entry is given a closed gate. Of
// the room for writes and syncs and their bytes that is reserved first, this uses at most three calls and one byte.
pub(crate) fn read_log<D: Disk>(
    alloc: Global,
    disk: &mut D,
    calls: u64,
    bytes: u64,
) -> Result<LogContents, MountError>
    requires calls { 3 ≤ calls }
    requires bytes { 1 ≤ bytes }
    ensures small { IfOk result (λ held. held.gate ≤ 2 ^ 62) }
    ensures ok { IfOk result (λ held. Mounts (D.meaning disk.old) (D.meaning disk.new) held.gate held.bodies) }
    ensures holds { IsTrue (D.meaning disk.old).honest → IfOk result (Holds (D.meaning disk.old) (D.meaning disk.new)) }
    ensures room { (p : Plan) → (D.meaning disk.old).plan ≡ Some p → OnOk result ((q : Plan) × ((D.meaning disk.new).plan ≡ Some q) × HasPlace (calls - 3) (bytes - 1) q) }
    ensures err { IfErr result (Refuses (D.meaning disk.old) (D.meaning disk.new)) }
{
    let file = contents(alloc, disk, calls, bytes)?;
    if file.len() < 6 {
        write_and_sync(disk, 0, &[0])?;
        return Ok(LogContents {
            gate: 0,
            last: None,
            bodies: Bodies::new(alloc),
            cluster: None,
        });
    }
    let held = read_entries(alloc, &file)?;
    renew_last(disk, held.last)?;
    Ok(held)
}
