//! What a run leaves on its devices.

use crate::boot::found_on;
use crsm_base::Bodies;
use crsm_disk::MemDisk;
use crsm_port::MemPort;
use crsm_shell::BootError;
use crsm_test_cases::Fault;
use std::alloc::{AllocError, Global};

/// Appends how many calls of the disk there were, and the lengths of the bodies that a boot finds on it as a crash
/// leaves it now, in order.
pub fn push_kept(alloc: Global, disk: &MemDisk, out: &mut String) -> Result<(), Fault> {
    write!(out, "{} calls, ", disk.calls())?;
    push_found(alloc, disk.image()?, out)?;
    Ok(())
}

fn push_found(alloc: Global, disk: MemDisk, out: &mut String) -> Result<(), AllocError> {
    match found_on(alloc, disk) {
        Ok(found) => push_lengths(&found.bodies, out),
        Err(why) => push_refusal(why, out),
    }
}

/// Appends why a boot refuses.
pub fn push_refusal(why: BootError, out: &mut String) -> Result<(), AllocError> {
    write!(out, "{why}")
}

fn push_lengths(bodies: &Bodies, out: &mut String) -> Result<(), AllocError> {
    if bodies.is_empty() {
        return out.push_str("kept none");
    }
    out.push_str("kept")?;
    for index in 0..bodies.len() {
        if let Some(body) = bodies.get(index) {
            write!(out, " {}", body.len())?;
        }
    }
    Ok(())
}

/// Appends the numbers of the requests whose replies were sent, in order.
pub fn push_answered(port: &MemPort, out: &mut String) -> Result<(), Fault> {
    if port.sent().len() == 0 {
        out.push_str("sent none")?;
        return Ok(());
    }
    out.push_str("sent")?;
    for index in 0..port.sent().len() {
        let number = answered(port, index).ok_or(Fault::Unreadable)?;
        write!(out, " {number}")?;
    }
    Ok(())
}

/// The number of the request that the datagram of this index answers.
fn answered(port: &MemPort, index: usize) -> Option<u8> {
    let (_, bytes) = port.sent().get(index)?;
    bytes.get(16).copied()
}
