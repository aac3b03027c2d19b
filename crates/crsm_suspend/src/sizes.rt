//! Encoded lengths of entries.

ghost use Rattle.std.specs.Prelude.{◌≡◌, ◌<◌, ◌+◌, ◌^◌, length};
ghost use Rattle.crsm_spec.specs.Collect.{size_of};
ghost use Rattle.crsm_base.specs.Spelling.{entry_bytes, key_bytes, op_bytes, option_bytes, val_bytes};

use crsm_base::{Entry, Key, Op, Val};

/// Returns the encoded length of an entry in bytes, also if its keys and values are longer than the limits allow.
pub fn entry_size(entry: &Entry) -> u128
    ensures value { result ≡ length (entry_bytes entry.now) }
    ensures bound { result < 2 ^ 68 }
{
    33 + op_size(&entry.command.op)
}

/// Returns the encoded length of the entries together, in bytes.
pub fn total_size(entries: &[Entry]) -> u128
    ensures { result ≡ size_of entries.now }
{
    let mut total = 0;
    for entry in entries {
        total += entry_size(entry);
    }
    total
}

fn op_size(op: &Op) -> u128
    ensures value { result ≡ length (op_bytes op.now) }
    ensures bound { result < 2 ^ 67 }
{
    match op {
        Op::Get(key) => 1 + key_size(key),
        Op::Put(key, val) => 1 + key_size(key) + val_size(val),
        Op::Delete(key) => 1 + key_size(key),
        Op::Cas(key, expected, new) => {
            1 + key_size(key) + option_size(expected) + option_size(new)
        }
    }
}

#[tactic(auto, using(crate::proofs::Lengths::key_long))]
fn key_size(key: &Key) -> u128
    ensures value { result ≡ length (key_bytes key.now) }
    ensures bound { result < 2 ^ 65 }
{
    key.as_slice().len() as u128 + 1
}

#[tactic(auto, using(crate::proofs::Lengths::val_long))]
fn val_size(val: &Val) -> u128
    ensures value { result ≡ length (val_bytes val.now) }
    ensures bound { result < 2 ^ 65 }
{
    val.as_slice().len() as u128 + 2
}

fn option_size(val: &Option<Val>) -> u128
    ensures value { result ≡ length (option_bytes val_bytes val.now) }
    ensures bound { result < 2 ^ 65 + 1 }
{
    match val {
        None => 1,
        Some(val) => val_size(val) + 1,
    }
}
