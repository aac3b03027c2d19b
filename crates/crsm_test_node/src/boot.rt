//! The table `boot`: boots of a replica that is a cluster of its own, and what comes of them.
//!
//! A line has the bodies of a log in hexadecimal, with spaces between, or `file` and the bytes of a whole file: then it
//! is booted on that. `run DISK PORT WORDS` boots it on an empty disk, where these calls of the disk and of the port
//! fail (`-`: none), and then does what the words say: `requests:N` and `junk` come to the port, `take:N` and `tick` are
//! steps, `flush` keeps and sends, `turn` is a step that is kept and sent at once, and `stop:N` or `open:N` stops the
//! disk after N further calls, where what was not synced reads as a closed or as an open gate.

use crate::disks::disk_of;
use crate::tale::tale_of;
use crsm_base::{Bodies, Bytes};
use crsm_disk::MemDisk;
use crsm_shell::{BootError, Booted, Shell};
use crsm_test_cases::Fault;
use std::alloc::{AllocError, Global};

/// What a boot found, and put on record.
#[derive(Drop)]
pub struct Found {
    /// The bodies that were in the log.
    pub bodies: Bodies,
    /// How many boots there were, with this one.
    boots: u64,
    /// How many lines and bytes the boot's records take.
    lines: usize,
    size: u64,
}

/// Boots it on this disk. At an error the disk is given back.
pub fn boot(alloc: Global, disk: MemDisk) -> Result<Booted<MemDisk>, (BootError, MemDisk)> {
    Shell::boot(alloc, 0, 1, &[70], disk)
}

/// What is on record of a boot. The replica is dropped by a function, which keeps its fields out of this proof.
fn found_in(booted: Booted<MemDisk>) -> Found {
    let Booted {
        shell,
        lines,
        size,
        bodies,
        ..
    } = booted;
    let boots = shell.state().boot();
    drop(shell);
    Found {
        boots,
        lines: lines.as_slice().len(),
        size,
        bodies,
    }
}

/// Returns what a boot finds on this disk, or why it refuses.
pub fn found_on(alloc: Global, disk: MemDisk) -> Result<Found, BootError> {
    match boot(alloc, disk) {
        Ok(booted) => Ok(found_in(booted)),
        Err((why, disk)) => {
            drop(disk);
            Err(why)
        }
    }
}

/// What a boot says of this disk.
fn boot_text(alloc: Global, disk: MemDisk) -> Result<String, AllocError> {
    match found_on(alloc, disk) {
        Ok(found) => found_text(alloc, &found),
        Err(why) => refusal_text(alloc, why),
    }
}

fn found_text(alloc: Global, found: &Found) -> Result<String, AllocError> {
    let (boots, bodies) = (found.boots, found.bodies.len());
    let (lines, size) = (found.lines, found.size);
    format!(in alloc; "boot {boots} behind {bodies} bodies, {lines} lines, {size} bytes")
}

fn refusal_text(alloc: Global, why: BootError) -> Result<String, AllocError> {
    match why {
        BootError::BadLog { entry, why } => format!(in alloc; "{entry}, {why}"),
        _ => format!(in alloc; "{why}"),
    }
}

/// The answer to a line.
fn answer_to(alloc: Global, line: &str) -> Result<String, Fault> {
    match line.split_once(' ') {
        Some(("run", script)) => tale_of(alloc, script),
        _ => Ok(boot_text(alloc, disk_of(alloc, line)?)?),
    }
}

/// Appends the answers to all lines of the table.
pub fn push_all(alloc: Global, text: &str, out: &mut Bytes) -> Result<(), Fault> {
    for line in text.lines() {
        let answer = answer_to(alloc, line)?;
        out.append(answer.as_bytes())?;
        out.push(b'\n')?;
    }
    Ok(())
}
