//! A disk over a file of the system.

use crsm_disk::{Disk, FileDisk, OpenError};
use std::fs::OpenOptions;
use std::test::Fail;

/// How many bytes of a disk are compared.
const SEEN: usize = 8;

fn open(rt: &HostRuntime, name: &str) -> Result<FileDisk, Fail> {
    Ok(FileDisk::open(rt, name)?)
}

/// The first bytes of the disk, with nines behind its end.
fn seen(disk: &mut FileDisk) -> Result<[u8; SEEN], Fail> {
    let mut bytes = [9u8; SEEN];
    disk.read_at(0, &mut bytes)?;
    Ok(bytes)
}

fn seen_in(rt: &HostRuntime, name: &str) -> Result<[u8; SEEN], Fail> {
    seen(&mut open(rt, name)?)
}

fn write_four(disk: &mut FileDisk) -> Result<(), Fail> {
    disk.write_at(0, &[1, 2, 3, 4])?;
    disk.sync()?;
    Ok(())
}

/// Cuts the file to this length, and not by its disk.
pub fn shorten_file(rt: &HostRuntime, name: &str, len: u64) -> Result<(), Fail> {
    OpenOptions::new().write(true).open(rt, name)?.set_len(len)?;
    Ok(())
}

#[test]
fn file_lasts(rt: HostRuntime) -> Result<(), Fail> {
    write_four(&mut open(&rt, "lasting")?)?;
    assert_eq!(rt; seen_in(&rt, "lasting")?, [1, 2, 3, 4, 9, 9, 9, 9]);
    shorten_file(&rt, "lasting", 3)?;
    assert_eq!(rt; open(&rt, "lasting")?.len(), Ok(3));
    open(&rt, "lasting")?.cut(2)?;
    assert_eq!(rt; seen_in(&rt, "lasting")?, [1, 2, 9, 9, 9, 9, 9, 9]);
    Ok(())
}

/// Writes a first byte, and then two behind it, of which one is renewed. The lengths are those before and behind.
fn write_ahead(disk: &mut FileDisk) -> Result<(u64, u64), Fail> {
    disk.write_at(0, &[7])?;
    let before = disk.len()?;
    disk.write_at(1, &[8, 9])?;
    disk.sync()?;
    disk.renew(2, 9)?;
    Ok((before, disk.len()?))
}

#[test]
fn zeros_stand_ahead(rt: HostRuntime) -> Result<(), Fail> {
    assert_eq!(rt; write_ahead(&mut open(&rt, "ahead")?)?, (1, 1 << 22));
    assert_eq!(rt; seen_in(&rt, "ahead")?, [7, 8, 9, 0, 0, 0, 0, 0]);
    Ok(())
}

/// Whether the file has a disk already.
fn is_in_use(rt: &HostRuntime, name: &str) -> bool {
    matches!(FileDisk::open(rt, name), Err(OpenError::InUse))
}

#[test]
fn file_has_one_disk(rt: HostRuntime) -> Result<(), Fail> {
    let first = open(&rt, "locked")?;
    assert!(rt; is_in_use(&rt, "locked"));
    drop(first);
    assert!(rt; !is_in_use(&rt, "locked"));
    Ok(())
}
