//! The store: commands over a number of keys and clients.

use crate::fault::Fault;
use crsm_base::{Answer, Command, Key, NoMemory, Op, Val};
use crsm_kv::Store;
use std::alloc::Global;

/// In which order the keys and clients of a store are visited.
#[derive(Clone, Copy)]
pub enum Visits {
    /// One after another.
    InOrder,
    /// Far from one another.
    Scattered,
}

/// A prime by which the keys and clients are visited out of their order.
const STRIDE: u32 = 2_654_435_761;

/// Which key and client is visited in this round.
fn place_of(visits: Visits, round: u32, size: u32) -> u32 {
    let number = match visits {
        Visits::InOrder => round,
        Visits::Scattered => round.wrapping_mul(STRIDE),
    };
    number.checked_rem(size).unwrap_or(0)
}

fn key(alloc: Global, place: u32) -> Result<Key, NoMemory> {
    Key::from_slice(alloc, &place.to_be_bytes())
}

fn value(alloc: Global) -> Result<Val, NoMemory> {
    Val::from_slice(alloc, b"a value of some bytes")
}

/// A read, a write or a compare-and-set that finds another value, in turn.
fn operation(alloc: Global, place: u32, round: u32) -> Result<Op, NoMemory> {
    let key = key(alloc, place)?;
    match round % 3 {
        0 => Ok(Op::Get(key)),
        1 => Ok(Op::Put(key, value(alloc)?)),
        _ => Ok(Op::Cas(key, None, Some(value(alloc)?))),
    }
}

/// Applies a client's command, and returns whether it was answered by a value.
fn finds(store: &mut Store, client: u32, number: u64, op: Op) -> Result<bool, NoMemory> {
    let command = Command {
        client: u64::from(client),
        number,
        op,
    };
    let answer = store.apply(&command)?;
    Ok(matches!(&answer, Answer::Found(_)))
}

/// Applies the first command of a client, which sets its key.
fn fill_one(alloc: Global, store: &mut Store, place: u32) -> Result<(), NoMemory> {
    let op = operation(alloc, place, 1)?;
    let _found = finds(store, place, 0, op)?;
    Ok(())
}

/// A store with so many clients, and a key of each.
fn filled(alloc: Global, size: u32) -> Result<Box<Store>, Fault> {
    let mut store = Box::new(alloc, Store::new(alloc)?)?;
    for place in 0..size {
        fill_one(alloc, &mut store, place)?;
    }
    Ok(store)
}

/// Applies so many commands to a store of so many keys and clients, and counts those that were answered by a value.
pub fn apply(alloc: Global, visits: Visits, size: u32, rounds: u32) -> Result<u64, Fault> {
    let mut store = filled(alloc, size)?;
    let mut count = 0u64;
    for round in 0..rounds {
        let place = place_of(visits, round, size);
        let op = operation(alloc, place, round)?;
        if finds(&mut store, place, u64::from(round) + 1, op)? {
            count = count.wrapping_add(1);
        }
    }
    Ok(count)
}
