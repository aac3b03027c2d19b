//! The ledger: a log of executed commands, recovered.

use crate::fault::Fault;
use crate::spell;
use crsm_base::{Bodies, Bytes, NoMemory};
use crsm_codec::write_u8;
use crsm_ledger::Ledger;
use std::alloc::Global;

/// The body of the first boot, of replica 0 alone: it boots, and takes part in epoch 0.
const BOOT: [u8; 12] = [1, 0, 1, 9, 0, 0, 0, 0, 0, 0, 0, 0];

/// The first bytes of records: a replica logs an entry, and executes it.
const PREPARE: u8 = 2;

const COMMIT: u8 = 3;

/// A body that logs and executes a command at this time.
fn command(alloc: Global, time: u32) -> Result<Bytes, NoMemory> {
    let mut body = Bytes::new(alloc);
    write_u8(alloc, &PREPARE, &mut body)?;
    spell::entry(alloc, time, &mut body)?;
    write_u8(alloc, &COMMIT, &mut body)?;
    spell::stamp(alloc, u64::from(time), &mut body)?;
    Ok(body)
}

/// The bodies of a log of so many commands.
fn log(alloc: Global, size: u32) -> Result<Bodies, NoMemory> {
    let mut bodies = Bodies::new(alloc);
    bodies.push(&BOOT)?;
    for time in 0..size {
        bodies.push(command(alloc, time)?.as_slice())?;
    }
    Ok(bodies)
}

/// Recovers a log, and counts the executed entries.
fn recovered(alloc: Global, bodies: &Bodies) -> Result<u64, Fault> {
    let ledger = Ledger::recover(alloc, 0, 1, bodies)?;
    Ok(ledger.executed_len())
}

/// Recovers a log of so many commands again and again, and counts the executed entries.
pub fn recover(alloc: Global, size: u32, rounds: u32) -> Result<u64, Fault> {
    let bodies = log(alloc, size)?;
    let mut count = 0u64;
    for _ in 0..rounds {
        count = count.wrapping_add(recovered(alloc, &bodies)?);
    }
    Ok(count)
}
