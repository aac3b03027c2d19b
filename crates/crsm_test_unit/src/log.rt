//! A log in a file of the system.

use crate::disk::shorten_file;
use crsm_disk::FileDisk;
use crsm_log::{Log, MountError, PutError};
use std::alloc::Global;
use std::fs;
use std::test::Fail;

/// The log of the file, which is made where there is none, and how many bodies it has.
fn mounted(rt: &HostRuntime) -> Result<(Log<FileDisk>, usize), MountError> {
    let Ok(disk) = FileDisk::open(rt, "log") else {
        return Err(MountError::DiskFault);
    };
    match Log::mount(rt.alloc(), disk) {
        Ok((log, bodies)) => Ok((log, bodies.len())),
        Err((why, _disk)) => Err(why),
    }
}

fn count(rt: &HostRuntime) -> Result<usize, MountError> {
    let (_log, count) = mounted(rt)?;
    Ok(count)
}

fn put_two(alloc: Global, log: &mut Log<FileDisk>) -> Result<(), PutError> {
    log.put(alloc, &[1, 2, 3])?;
    log.put(alloc, &[4])
}

fn write_log(rt: &HostRuntime) -> Result<(), Fail> {
    let (mut log, _count) = mounted(rt)?;
    put_two(rt.alloc(), &mut log)?;
    Ok(())
}

#[test]
fn file_is_cut_by_hand(rt: HostRuntime) -> Result<(), Fail> {
    write_log(&rt)?;
    assert_eq!(rt; count(&rt), Ok(2));
    shorten_file(&rt, "log", 14)?;
    assert_eq!(rt; count(&rt), Err(MountError::BadGate { entry: 1 }));
    fs::remove_file(&rt, "log")?;
    Ok(())
}
