//! The table `node`: what comes of nodes over devices in memory, one for each line.
//!
//! A line is `ME N TURNS PEERS CLUSTER READINGS DATAGRAMS PORT DISK SHEET FILE`: the addresses of the replicas, the
//! readings of the clock, what comes to the port (each as ADDRESS:HEX), the calls of the port, of the disk and of the
//! sheet that fail, and the bytes of the log file, or `same` for what a crash leaves of the one before. Parts of a word
//! stand between commas, and `-` is none. Behind the status stand the sheet, what was sent, and the file.

use crate::script::Script;
use crsm_base::{Bytes, NoMemory};
use crsm_node::{NodeEnd, Silent};
use crsm_port::SentPackets;
use crsm_test_cases::Fault;
use crsm_text::{push_hex, push_named};
use std::alloc::Global;

/// How it ended.
fn push_end(out: &mut Bytes, end: NodeEnd) -> Result<(), NoMemory> {
    match end {
        NodeEnd::Done => push_named(out, b"== done", &[])?,
        NodeEnd::PortFault => push_named(out, b"== port", &[])?,
        NodeEnd::DiskFault => push_named(out, b"== disk", &[])?,
        NodeEnd::LogFull => push_named(out, b"== full", &[])?,
        NodeEnd::WriteFault => push_named(out, b"== sheet", &[])?,
        NodeEnd::BadLog { entry, why } => push_named(out, b"== bad", &[entry, u64::from(why)])?,
        NodeEnd::OtherCluster { found } => push_named(out, b"== other", &[found])?,
        NodeEnd::NoMemory => push_named(out, b"== memory", &[])?,
    }
    out.push(b'\n')
}

/// The datagrams that were sent, each with its address.
fn push_sent(out: &mut Bytes, sent: &SentPackets) -> Result<(), NoMemory> {
    for index in 0..sent.len() {
        if let Some((address, bytes)) = sent.get(index) {
            push_named(out, b"sent", &[address])?;
            push_bytes(out, bytes)?;
        }
    }
    Ok(())
}

/// The bytes of the log file.
fn push_file(out: &mut Bytes, file: &[u8]) -> Result<(), NoMemory> {
    out.append(b"file")?;
    push_bytes(out, file)
}

fn push_bytes(out: &mut Bytes, bytes: &[u8]) -> Result<(), NoMemory> {
    out.push(b' ')?;
    push_hex(out, bytes)?;
    out.push(b'\n')
}

/// Appends what a node left on its devices.
fn push_left(script: &Script, out: &mut Bytes) -> Result<(), NoMemory> {
    out.append(script.sheet.as_slice())?;
    push_sent(out, script.port.sent())?;
    push_file(out, script.disk.bytes())
}

/// The bytes that a crash then leaves of its disk.
fn image_of(alloc: Global, script: &Script) -> Result<Vec<u8>, Fault> {
    let image = script.disk.image()?;
    let bytes = Vec::from_slice(alloc, image.bytes());
    drop(image);
    Ok(bytes?)
}

/// Runs the node of a line, appends what came of it, and gives what a crash then leaves of its disk.
fn run(alloc: Global, line: &str, before: &[u8], out: &mut Bytes) -> Result<Vec<u8>, Fault> {
    let mut script = Script::read(alloc, line, before)?;
    let end = script.run(alloc, &mut Silent);
    push_end(out, end)?;
    push_left(&script, out)?;
    image_of(alloc, &script)
}

/// Appends what comes of the nodes of all lines of the table.
pub fn push_all(alloc: Global, text: &str, out: &mut Bytes) -> Result<(), Fault> {
    let mut before = Vec::new(alloc);
    for line in text.lines() {
        before = run(alloc, line, &before, out)?;
    }
    Ok(())
}
