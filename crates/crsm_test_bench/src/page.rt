//! The codec: a page of entries, read and written.

use crate::fault::Fault;
use crate::spell;
use crsm_base::{Bytes, Entries, NoMemory};
use crsm_codec::{read_entries, write_entries, write_u32};
use std::alloc::Global;

/// The bytes of a page of so many entries.
fn bytes_of(alloc: Global, size: u32) -> Result<Bytes, NoMemory> {
    let mut bytes = Bytes::new(alloc);
    write_u32(alloc, &size, &mut bytes)?;
    for time in 0..size {
        spell::entry(alloc, time, &mut bytes)?;
    }
    Ok(bytes)
}

/// The entries that the bytes spell.
fn entries_of(alloc: Global, bytes: &Bytes) -> Result<Entries, Fault> {
    match read_entries(alloc, bytes.as_slice())? {
        Some((entries, _)) => Ok(entries),
        None => Err(Fault::NoPage),
    }
}

/// How many bytes of a page are read, where it has so many entries.
fn bytes_read(alloc: Global, bytes: &Bytes, size: u32) -> Result<u64, Fault> {
    let entries = entries_of(alloc, bytes)?;
    if entries.as_slice().len() == size as usize {
        Ok(bytes.as_slice().len() as u64)
    } else {
        Ok(0)
    }
}

/// Reads a page of so many entries again and again, and counts the bytes.
pub fn read(alloc: Global, size: u32, rounds: u32) -> Result<u64, Fault> {
    let bytes = bytes_of(alloc, size)?;
    let mut count = 0u64;
    for _ in 0..rounds {
        count = count.wrapping_add(bytes_read(alloc, &bytes, size)?);
    }
    Ok(count)
}

/// Writes a page of so many entries again and again, and counts the bytes.
pub fn write(alloc: Global, size: u32, rounds: u32) -> Result<u64, Fault> {
    let bytes = bytes_of(alloc, size)?;
    let Some((entries, _)) = read_entries(alloc, bytes.as_slice())? else {
        return Err(Fault::NoPage);
    };
    let mut count = 0u64;
    for _ in 0..rounds {
        let mut out = Bytes::new(alloc);
        write_entries(alloc, &entries, &mut out)?;
        count = count.wrapping_add(out.as_slice().len() as u64);
    }
    Ok(count)
}
