//! Entries as the bytes that a log or a page has of them.

use crsm_base::{Bytes, NoMemory};
use crsm_codec::{write_u8, write_u16, write_u32, write_u64};
use std::alloc::Global;

/// The first byte of a request.
const REQUEST: u8 = 4;

/// The first byte of an operation that sets a key.
const PUT: u8 = 2;

/// The value that each entry sets.
const VALUE: &[u8] = b"a value of some bytes";

/// Appends a stamp with this time, of replica 0.
pub fn stamp(alloc: Global, time: u64, out: &mut Bytes) -> Result<(), NoMemory> {
    write_u64(alloc, &time, out)?;
    write_u8(alloc, &0, out)
}

/// Appends a client's command of this number, which sets the key that has the number's last digits.
fn command(alloc: Global, number: u32, out: &mut Bytes) -> Result<(), NoMemory> {
    write_u64(alloc, &7, out)?;
    write_u64(alloc, &u64::from(number), out)?;
    write_u8(alloc, &PUT, out)?;
    write_u8(alloc, &4, out)?;
    write_u32(alloc, &(number % 4_096), out)?;
    write_u16(alloc, &(VALUE.len() as u16), out)?;
    out.append(VALUE)
}

/// Appends the datagram of a request with this number.
pub fn request(alloc: Global, number: u32, out: &mut Bytes) -> Result<(), NoMemory> {
    write_u8(alloc, &REQUEST, out)?;
    command(alloc, number, out)
}

/// Appends an entry of epoch 0 with this time, in which a client sets the key that has the time's last digits.
pub fn entry(alloc: Global, time: u32, out: &mut Bytes) -> Result<(), NoMemory> {
    write_u64(alloc, &0, out)?;
    stamp(alloc, u64::from(time), out)?;
    command(alloc, time, out)
}
