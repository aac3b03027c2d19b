//! What a run left on the devices of its case.

use crate::case::Case;
use crsm_base::{Bytes, NoMemory};
use crsm_disk::MemDisk;
use crsm_port::MemPort;
use crsm_text::{push_hex, push_number};
use std::alloc::Global;

/// Appends a line `sent TO HEX`.
fn push_packet(text: &mut Bytes, to: u64, bytes: &[u8]) -> Result<(), NoMemory> {
    text.append(b"sent ")?;
    push_number(text, to)?;
    text.push(b' ')?;
    push_hex(text, bytes)?;
    text.push(b'\n')
}

/// Appends what was sent, a line for each datagram.
fn push_sent(text: &mut Bytes, port: &MemPort) -> Result<(), NoMemory> {
    let packets = port.sent();
    for i in 0..packets.len() {
        if let Some((to, bytes)) = packets.get(i) {
            push_packet(text, to, bytes)?;
        }
    }
    Ok(())
}

/// Appends the log file, on a line `file HEX`, if it has a byte.
fn push_file(text: &mut Bytes, disk: &MemDisk) -> Result<(), NoMemory> {
    if disk.bytes().is_empty() {
        return Ok(());
    }
    text.append(b"file ")?;
    push_hex(text, disk.bytes())?;
    text.push(b'\n')
}

/// Appends what a run wrote, sent and kept.
fn push_left(text: &mut Bytes, case: &Case) -> Result<(), NoMemory> {
    text.append(case.output.as_slice())?;
    push_sent(text, &case.port)?;
    push_file(text, &case.disk)
}

/// Returns what the run of a case wrote, sent and kept.
///
/// # Errors
/// Memory ran out.
pub fn left_of(alloc: Global, case: Box<Case>) -> Result<Bytes, NoMemory> {
    let mut text = Bytes::new(alloc);
    let pushed = push_left(&mut text, &case);
    drop(case);
    pushed?;
    Ok(text)
}
