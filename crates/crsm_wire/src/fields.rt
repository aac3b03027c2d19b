//! Whether fields, commands and entries can be encoded.

ghost use Rattle.std.specs.Prelude.{◌≡◌, ◌<◌, ◌^◌, IsTrue};
ghost use Rattle.std.specs.Option.{IfSome};
ghost use Rattle.crsm_base.specs.Spelling.{FitsStamp, FitsBallot, FitsOption, key_bytes, FitsKey, val_bytes, FitsVal, option_bytes, op_bytes, FitsOp, entry_bytes, FitsEntry};
ghost use Rattle.crsm_wire.specs.Sized.{IsSized};

use crsm_base::{Ballot, Entry, Key, MAX_KEY_BYTES, MAX_REPLICAS, MAX_VAL_BYTES, Op, Stamp, Val};

/// Returns true: every u64 can be encoded, and this restates its bound for the proofs of callers.
pub fn is_number_spelt(_number: u64) -> bool
    ensures { IsTrue result → _number < 2 ^ 64 }
{
    true
}

/// Returns whether the stamp can be encoded: its origin is below 15.
pub fn is_stamp_spelt(stamp: Stamp) -> bool
    ensures { IsTrue result → FitsStamp stamp }
{
    stamp.origin < MAX_REPLICAS
}

/// Returns whether the stamp, if there is one, can be encoded.
pub fn is_floor_spelt(floor: Option<Stamp>) -> bool
    ensures { IsTrue result → FitsOption FitsStamp floor }
{
    match floor {
        None => true,
        Some(stamp) => is_stamp_spelt(stamp),
    }
}

/// Returns whether the ballot can be encoded: its proposer is below 15.
pub fn is_ballot_spelt(ballot: Ballot) -> bool
    ensures { IsTrue result → FitsBallot ballot }
{
    ballot.by < MAX_REPLICAS
}

fn key_size(key: &Key) -> Option<u64>
    ensures { IfSome result (λ size. IsSized key_bytes FitsKey 65 key.now size) }
{
    let length = key.as_slice().len();
    if length == 0 {
        return None;
    }
    if length > MAX_KEY_BYTES as usize {
        return None;
    }
    Some(length as u64 + 1)
}

fn val_size(val: &Val) -> Option<u64>
    ensures { IfSome result (λ size. IsSized val_bytes FitsVal 514 val.now size) }
{
    let length = val.as_slice().len();
    if length > MAX_VAL_BYTES as usize {
        return None;
    }
    Some(length as u64 + 2)
}

fn option_size(val: &Option<Val>) -> Option<u64>
    ensures { IfSome result (λ size. IsSized (option_bytes val_bytes) (FitsOption FitsVal) 515 val.now size) }
{
    match val {
        None => Some(1),
        Some(val) => Some(val_size(val)? + 1),
    }
}

fn op_size(op: &Op) -> Option<u64>
    ensures { IfSome result (λ size. IsSized op_bytes FitsOp 1096 op.now size) }
{
    match op {
        Op::Get(key) => Some(key_size(key)? + 1),
        Op::Put(key, val) => Some(key_size(key)? + val_size(val)? + 1),
        Op::Delete(key) => Some(key_size(key)? + 1),
        Op::Cas(key, expected, new) => {
            Some(key_size(key)? + option_size(expected)? + option_size(new)? + 1)
        }
    }
}

/// Returns the encoded length of the entry in bytes, or `None` if it cannot be encoded.
pub fn entry_size(entry: &Entry) -> Option<u64>
    ensures { IfSome result (λ size. IsSized entry_bytes FitsEntry 1129 entry.now size) }
{
    let _epoch = entry.epoch;
    let _client = entry.command.client;
    let _number = entry.command.number;
    if !is_stamp_spelt(entry.stamp) {
        return None;
    }
    Some(op_size(&entry.command.op)? + 33)
}
