//! A collection: the reports of 15 replicas, taken page by page until a majority is whole.

ghost use Rattle.std.specs.Prelude.{◌<◌};

use crate::fault::Fault;
use crate::spell;
use crsm_base::{Bodies, Bytes, Members, MembersError, NoMemory};
use crsm_codec::{write_u8, write_u32, write_u64};
use crsm_suspend::{Collect, PageOutcome};
use crsm_wire::read_control;
use std::alloc::Global;

/// The first byte of a message that brings a page.
const SUSPEND_OK: u8 = 2;

/// How many replicas there are.
const REPLICAS: u32 = 15;

/// How many entries a page has at most.
const PAGE: u32 = 512;

const ALL: [u32; 15] = [0, 1, 2, 3, 4, 5, 6, 7, 8, 9, 10, 11, 12, 13, 14];

fn members(alloc: Global) -> Result<Members, NoMemory> {
    Members::from_slice(alloc, &ALL).map_err(|_: MembersError| NoMemory)
}

/// The time of an entry at a place of a replica's report: half of two neighbours' reports are the same entries.
fn time_of(replica: u32, size: u32, place: u32) -> u32 {
    replica
        .wrapping_mul(size / 2)
        .wrapping_add(place)
        .wrapping_add(1)
}

/// The message with the page from a place on of a replica's report of so many entries.
fn message(alloc: Global, replica: u32, size: u32, place: u32) -> Result<Bytes, NoMemory> {
    let mut bytes = Bytes::new(alloc);
    let count = size.saturating_sub(place).min(PAGE);
    let is_whole = size.saturating_sub(place) <= PAGE;
    write_u8(alloc, &SUSPEND_OK, &mut bytes)?;
    write_u64(alloc, &0, &mut bytes)?;
    write_u64(alloc, &0, &mut bytes)?;
    write_u8(alloc, &0, &mut bytes)?;
    if place == 0 {
        write_u8(alloc, &0, &mut bytes)?;
    } else {
        write_u8(alloc, &1, &mut bytes)?;
        let before = time_of(replica, size, place - 1);
        spell::stamp(alloc, u64::from(before), &mut bytes)?;
    }
    write_u8(alloc, &u8::from(is_whole), &mut bytes)?;
    write_u32(alloc, &count, &mut bytes)?;
    for index in 0..count {
        let time = time_of(replica, size, place.wrapping_add(index));
        spell::entry(alloc, time, &mut bytes)?;
    }
    Ok(bytes)
}

/// The messages of all replicas, those of replicas 0 to 14 in turn: first all first pages, and the last pages last.
fn messages(alloc: Global, size: u32) -> Result<Bodies, NoMemory> {
    let mut all = Bodies::new(alloc);
    for number in 0..size.div_ceil(PAGE) {
        for replica in 0..REPLICAS {
            let place = number.wrapping_mul(PAGE);
            all.push(message(alloc, replica, size, place)?.as_slice())?;
        }
    }
    Ok(all)
}

fn begun(alloc: Global) -> Result<Box<Collect>, Fault> {
    let spec = members(alloc)?;
    let collect = Collect::start(alloc, 0, 0, spec, None, members(alloc)?);
    Ok(Box::new(alloc, collect)?)
}

/// Takes a message of this replica, and returns how many entries the tail has if a majority is whole.
fn take(alloc: Global, collect: &mut Collect, from: u32, bytes: &[u8]) -> Result<Option<u64>, Fault>
    requires { from < 15 }
{
    let control = read_control(alloc, bytes)?;
    match collect.take(from, control)? {
        PageOutcome::Complete(decision) => Ok(Some(decision.tail.as_slice().len() as u64)),
        PageOutcome::TooMany { count, .. } => Ok(Some(count)),
        _ => Ok(None),
    }
}

/// Takes messages until a majority is whole, and counts the entries of the tail.
fn collected(alloc: Global, messages: &Bodies) -> Result<u64, Fault> {
    let mut collect = begun(alloc)?;
    let mut turn = 0u32;
    for index in 0..messages.len() {
        let bytes = messages.get(index).unwrap_or(&[]);
        if let Some(count) = take(alloc, &mut collect, turn % REPLICAS, bytes)? {
            return Ok(count);
        }
        turn = turn.wrapping_add(1);
    }
    Ok(0)
}

/// Collects 15 reports of so many entries again and again, and counts the entries of the tails.
pub fn collect(alloc: Global, size: u32, rounds: u32) -> Result<u64, Fault> {
    let messages = messages(alloc, size)?;
    let mut count = 0u64;
    for _ in 0..rounds {
        count = count.wrapping_add(collected(alloc, &messages)?);
    }
    Ok(count)
}
