//! Disks with logs.

use crate::words::bytes_of;
use crsm_disk::{Disk, MemDisk};
use crsm_test_cases::Fault;
use std::alloc::Global;

/// Returns a disk with the log of a line, all of it synced.
pub fn disk_of(alloc: Global, line: &str) -> Result<MemDisk, Fault> {
    let file = file_of(alloc, line)?;
    let disk = disk_with(alloc, &file, &[])?;
    Ok(disk.image()?)
}

/// Returns a disk with the bytes of a whole file, synced. Its calls of these numbers fail; the first two write the file
/// and sync it.
pub fn disk_with(alloc: Global, file: &[u8], fails: &[u64]) -> Result<Box<MemDisk>, Fault> {
    let mut disk = failing_disk(alloc, fails)?;
    fill(&mut disk, file)?;
    Ok(disk)
}

/// Returns an empty disk whose calls of these numbers fail.
pub fn failing_disk(alloc: Global, fails: &[u64]) -> Result<Box<MemDisk>, Fault> {
    let disk = MemDisk::new(alloc, fails, None, 0)?;
    Ok(Box::new(alloc, disk)?)
}

fn fill(disk: &mut MemDisk, file: &[u8]) -> Result<(), Fault> {
    disk.reserve(2, file.len() as u64)?;
    disk.write_at(0, file)?;
    disk.sync()?;
    Ok(())
}

/// The bytes of the file that a line says.
fn file_of(alloc: Global, line: &str) -> Result<Vec<u8>, Fault> {
    let mut words = line.split(' ');
    if let Some("file") = words.next() {
        return bytes_of(alloc, words.next().unwrap_or(""));
    }
    let mut file = Vec::new(alloc);
    add_entries(alloc, &mut file, line)?;
    Ok(file)
}

/// Adds the entries of the bodies of a line, and a closed gate behind them.
fn add_entries(alloc: Global, file: &mut Vec<u8>, line: &str) -> Result<(), Fault> {
    for word in line.split(' ') {
        add_entry(alloc, file, word)?;
    }
    file.push(0u8)?;
    Ok(())
}

/// Adds the entry of a body behind an open gate.
fn add_entry(alloc: Global, file: &mut Vec<u8>, word: &str) -> Result<(), Fault> {
    let body = bytes_of(alloc, word)?;
    let length = u32::try_from(body.len()).map_err(|_| Fault::Unreadable)?;
    file.push(1)?;
    file.extend_from_slice(&length.to_be_bytes())?;
    file.extend_from_slice(&body)?;
    Ok(())
}
