//! The limits of the store at their full size: how many keys it takes, and how many clients.

use crsm_base::{Answer, Command, Key, NoMemory, Op, Val};
use crsm_kv::Store;
use std::alloc::Global;
use std::process::Abort;
use std::test::Fail;

fn key(alloc: Global, number: u32) -> Result<Key, NoMemory> {
    Key::from_slice(alloc, &number.to_be_bytes())
}

fn put(alloc: Global, number: u32) -> Result<Op, NoMemory> {
    let key = key(alloc, number)?;
    Ok(Op::Put(key, Val::from_slice(alloc, b"v")?))
}

fn ask(store: &mut Store, client: u64, number: u64, op: Op) -> Result<Answer, NoMemory> {
    store.apply(&Command { client, number, op })
}

/// A change of a key.
#[derive(Clone, Copy)]
enum Change {
    Put(u32),
    Delete(u32),
}

fn op(alloc: Global, change: Change) -> Result<Op, NoMemory> {
    match change {
        Change::Put(number) => put(alloc, number),
        Change::Delete(number) => Ok(Op::Delete(key(alloc, number)?)),
    }
}

/// A client, its number, its change, whether there is room for it, and how many keys there are then.
type Step = (u64, u64, Change, bool, u64);

/// What clients ask of a full store.
const STEPS: [Step; 6] = [
    // A new client has no room, and nothing is kept of it.
    (65_536, 1, Change::Put(5), false, 65_536),
    // A known client is served. That its new key has no room is its kept answer.
    (5, 2, Change::Put(65_536), false, 65_536),
    (6, 2, Change::Delete(6), true, 65_535),
    (5, 2, Change::Put(65_536), false, 65_535),
    // A known key is set, and a new one where there is room again.
    (7, 2, Change::Put(7), true, 65_535),
    (7, 3, Change::Put(65_536), true, 65_536),
];

/// Gives the store as many clients as there may be, and a key of each.
fn fill(alloc: Global, store: &mut Store) -> Result<(), NoMemory> {
    for number in 0..65_536u32 {
        let _ = ask(store, u64::from(number), 1, put(alloc, number)?)?;
    }
    Ok(())
}

/// Whether the step's change is done where it has room, and else has none.
fn is_served(alloc: Global, store: &mut Store, step: &Step) -> Result<bool, NoMemory> {
    let (client, number, change, has_room, _) = *step;
    let answer = ask(store, client, number, op(alloc, change)?)?;
    match &answer {
        Answer::Done => Ok(has_room),
        Answer::NoRoom => Ok(!has_room),
        _ => Ok(false),
    }
}

/// Fills the store, and asks all the steps of it.
fn ask_full(rt: &impl Abort, alloc: Global, store: &mut Store) -> Result<(), NoMemory> {
    fill(alloc, store)?;
    for step in STEPS.iter() {
        let (client, number, _, _, keys) = *step;
        assert!(rt;
            is_served(alloc, store, step)?,
            "client {client}, number {number}"
        );
        assert_eq!(rt; store.clients(), 65_536);
        assert_eq!(rt; store.keys(), keys);
    }
    Ok(())
}

#[test]
fn keeps_its_limits(rt: HostRuntime) -> Result<(), Fail> {
    let mut store = Store::new(rt.alloc())?;
    ask_full(&rt, rt.alloc(), &mut store)?;
    Ok(())
}
