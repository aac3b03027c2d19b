//! The content of a log file: the cluster that it names, and its bodies.

ghost use Rattle.std.specs.Prelude.{◌≡◌, IfErr, IfOk};
ghost use Rattle.crsm_disk.specs.Memory.{meaning_of};
ghost use Rattle.crsm_log.specs.Format.{cluster_of, found, reading};
ghost use Rattle.crsm_cmd_dump.specs.Reading.{IsNoFile, Shows};
ghost use Rattle.crsm_cmd_dump.specs.Texts.{cluster_number};

use crate::ending::DumpEnd;
use crsm_base::{Bodies, NoMemory};
use crsm_disk::{Disk, MemDisk};
use crsm_log::{ClaimError, Log, claim};
use std::alloc::Global;

/// The content of a log file.
#[derive(Drop)]
pub(crate) struct LogFile {
    /// The number of the cluster that the log names, 0 if it names none.
    pub cluster: u64,
    pub bodies: Bodies,
}

/// Returns a disk in memory with these bytes. `NoMemory` if memory runs out.
fn disk_with(alloc: Global, file: &[u8]) -> Result<MemDisk, NoMemory>
    ensures { IfOk result (λ disk. (meaning_of disk).seen ≡ file.now) }
{
    let mut disk = MemDisk::new(alloc, &[], None, 0)?;
    disk.reserve(1, file.len() as u64)?;
    match disk.write_at(0, file) {
        Ok(()) => Ok(disk),
        Err(_) => unreachable!(),
    }
}

/// Returns the number of the cluster that the log on a disk names, 0 if it names none. The bodies on the disk stay.
fn cluster_on(alloc: Global, disk: &mut MemDisk) -> Result<u64, DumpEnd>
    ensures named { IfOk result (λ cluster. cluster ≡ cluster_number (cluster_of (meaning_of disk.old).seen)) }
    ensures same { IfOk result (λ cluster. reading (meaning_of disk.new).seen ≡ reading (meaning_of disk.old).seen) }
    ensures bad { IfErr result (IsNoFile (meaning_of disk.old).seen) }
{
    match claim(alloc, disk, 0) {
        Ok(()) => Ok(0),
        Err(ClaimError::OtherCluster { found }) => Ok(found),
        Err(error) => Err(DumpEnd::from(error)),
    }
}

/// Returns the bodies on a disk.
fn bodies_on(alloc: Global, disk: MemDisk) -> Result<Bodies, DumpEnd>
    ensures held { IfOk result (λ bodies. reading (meaning_of disk).seen ≡ found bodies) }
    ensures bad { IfErr result (IsNoFile (meaning_of disk).seen) }
{
    match Log::mount(alloc, disk) {
        Ok((_log, bodies)) => Ok(bodies),
        Err((error, _disk)) => Err(DumpEnd::from(error)),
    }
}

/// Parses a log file. `BadLog` if an open gate has no entry, `NoMemory` if memory runs out.
pub(crate) fn read_file(alloc: Global, file: Vec<u8>) -> Result<LogFile, DumpEnd>
    ensures shows { IfOk result (Shows file.items) }
    ensures bad { IfErr result (IsNoFile file.items) }
{
    let mut disk = disk_with(alloc, &file)?;
    let cluster = cluster_on(alloc, &mut disk)?;
    let bodies = bodies_on(alloc, disk)?;
    Ok(LogFile { cluster, bodies })
}
