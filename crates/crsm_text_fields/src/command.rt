//! Encoding and parsing of operations, commands and entries.

ghost use Rattle.std.specs.Prelude.{◌≡◌, ◌++◌, IfOk, OnOk};
ghost use Rattle.std.specs.Option.{option_map};
ghost use Rattle.crsm_base.specs.Spelling.{FitsStamp, FitsKey, op_bytes, FitsOp, command_bytes, FitsCommand, entry_bytes, FitsEntry};
ghost use Rattle.crsm_base.specs.Parser.{both};
ghost use Rattle.crsm_base.specs.Reading.{get_at, put_at, delete_at, cas_at, op_at, option_val_at, command_at, entry_at};
ghost use Rattle.crsm_text_fields.specs.Heads.{command_head, entry_head};

use crate::cells::{pair_and_bytes, stamp_and_pair};
use crate::number::{take_u8, take_u64};
use crate::stamp::take_stamp;
use crate::value::{put_option_val, put_tagged_key, put_val, take_key, take_option_val, take_val};
use crsm_base::{Bytes, Command, Entry, Key, NoMemory, Op, Val};
use std::alloc::Global;

/// Appends the encoding of an operation. `NoMemory` if memory runs out; a prefix may then have been appended.
#[tactic(auto, unfolding(crsm_base::specs::Spelling::op_bytes))]
pub fn put_op(op: &Op, out: &mut Bytes) -> Result<(), NoMemory>
    requires { FitsOp op.now }
    ensures { OnOk result (out.new ≡ out.old ++ op_bytes op.now) }
{
    match op {
        Op::Get(key) => put_tagged_key(1, key, out),
        Op::Put(key, val) => {
            put_tagged_key(2, key, out)?;
            put_val(val, out)
        }
        Op::Delete(key) => put_tagged_key(3, key, out),
        Op::Cas(key, expected, new) => {
            put_tagged_key(4, key, out)?;
            put_option_val(expected, out)?;
            put_option_val(new, out)
        }
    }
}

// Appends the two numbers of a command, the tag of its operation, and the key.
#[tactic(auto, unfolding(crsm_base::specs::Spelling::key_bytes))]
fn put_prefix(command: &Command, tag: u8, key: &Key, out: &mut Bytes) -> Result<(), NoMemory>
    requires { FitsKey key.now }
    ensures { OnOk result (out.new ≡ out.old ++ command_head command.now tag key.now) }
{
    let bytes = key.as_slice();
    let prefix = pair_and_bytes(command.client, command.number, tag, bytes.len() as u8);
    out.append(&prefix)?;
    out.append(bytes)
}

/// Appends the encoding of a command. `NoMemory` if memory runs out; a prefix may then have been appended.
#[tactic(auto, unfolding(crsm_base::specs::Spelling::command_bytes, crsm_base::specs::Spelling::op_bytes))]
pub fn put_command(command: &Command, out: &mut Bytes) -> Result<(), NoMemory>
    requires { FitsCommand command.now }
    ensures { OnOk result (out.new ≡ out.old ++ command_bytes command.now) }
{
    match &command.op {
        Op::Get(key) => put_prefix(command, 1, key, out),
        Op::Put(key, val) => {
            put_prefix(command, 2, key, out)?;
            put_val(val, out)
        }
        Op::Delete(key) => put_prefix(command, 3, key, out),
        Op::Cas(key, expected, new) => {
            put_prefix(command, 4, key, out)?;
            put_option_val(expected, out)?;
            put_option_val(new, out)
        }
    }
}

// Appends the epoch and stamp of an entry, and then the same of its command.
#[tactic(auto, unfolding(crsm_base::specs::Spelling::key_bytes))]
fn put_entry_prefix(entry: &Entry, tag: u8, key: &Key, out: &mut Bytes) -> Result<(), NoMemory>
    requires stamp { FitsStamp entry.now.stamp }
    requires key { FitsKey key.now }
    ensures { OnOk result (out.new ≡ out.old ++ entry_head entry.now tag key.now) }
{
    let bytes = key.as_slice();
    let prefix = stamp_and_pair(
        entry.epoch,
        entry.stamp,
        entry.command.client,
        entry.command.number,
        tag,
        bytes.len() as u8,
    );
    out.append(&prefix)?;
    out.append(bytes)
}

/// Appends the encoding of an entry. `NoMemory` if memory runs out; a prefix may then have been appended.
#[tactic(auto, unfolding(crsm_base::specs::Spelling::entry_bytes, crsm_base::specs::Spelling::command_bytes, crsm_base::specs::Spelling::op_bytes))]
pub fn put_entry(entry: &Entry, out: &mut Bytes) -> Result<(), NoMemory>
    requires { FitsEntry entry.now }
    ensures { OnOk result (out.new ≡ out.old ++ entry_bytes entry.now) }
{
    match &entry.command.op {
        Op::Get(key) => put_entry_prefix(entry, 1, key, out),
        Op::Put(key, val) => {
            put_entry_prefix(entry, 2, key, out)?;
            put_val(val, out)
        }
        Op::Delete(key) => put_entry_prefix(entry, 3, key, out),
        Op::Cas(key, expected, new) => {
            put_entry_prefix(entry, 4, key, out)?;
            put_option_val(expected, out)?;
            put_option_val(new, out)
        }
    }
}

#[tactic(auto, unfolding(crsm_base::specs::Reading::get_at))]
fn take_get(alloc: Global, bytes: &[u8]) -> Result<Option<(Op, &[u8])>, NoMemory>
    ensures { IfOk result (λ r. option_map (λ x. (x.0, x.1.now)) r ≡ get_at bytes.now) }
{
    match take_key(alloc, bytes) {
        Ok(Some((key, rest))) => Ok(Some((Op::Get(key), rest))),
        Ok(None) => Ok(None),
        Err(NoMemory) => Err(NoMemory),
    }
}

#[tactic(auto, unfolding(crsm_base::specs::Reading::put_at))]
fn take_put(alloc: Global, bytes: &[u8]) -> Result<Option<(Op, &[u8])>, NoMemory>
    ensures { IfOk result (λ r. option_map (λ x. (x.0, x.1.now)) r ≡ put_at bytes.now) }
{
    let Ok(taken) = take_key(alloc, bytes) else {
        return Err(NoMemory);
    };
    let Some((key, rest)) = taken else {
        return Ok(None);
    };
    let Ok(taken) = take_val(alloc, rest) else {
        drop(key);
        return Err(NoMemory);
    };
    let Some((val, rest)) = taken else {
        drop(key);
        return Ok(None);
    };
    Ok(Some((Op::Put(key, val), rest)))
}

#[tactic(auto, unfolding(crsm_base::specs::Reading::delete_at))]
fn take_delete(alloc: Global, bytes: &[u8]) -> Result<Option<(Op, &[u8])>, NoMemory>
    ensures { IfOk result (λ r. option_map (λ x. (x.0, x.1.now)) r ≡ delete_at bytes.now) }
{
    match take_key(alloc, bytes) {
        Ok(Some((key, rest))) => Ok(Some((Op::Delete(key), rest))),
        Ok(None) => Ok(None),
        Err(NoMemory) => Err(NoMemory),
    }
}

// Parses the two values of a compare-and-set.
fn take_two(
    alloc: Global,
    bytes: &[u8],
) -> Result<Option<((Option<Val>, Option<Val>), &[u8])>, NoMemory>
    ensures { IfOk result (λ r. option_map (λ x. (x.0, x.1.now)) r ≡ both option_val_at option_val_at bytes.now) }
{
    let Ok(taken) = take_option_val(alloc, bytes) else {
        return Err(NoMemory);
    };
    let Some((expected, rest)) = taken else {
        return Ok(None);
    };
    let Ok(taken) = take_option_val(alloc, rest) else {
        drop(expected);
        return Err(NoMemory);
    };
    let Some((new, rest)) = taken else {
        drop(expected);
        return Ok(None);
    };
    Ok(Some(((expected, new), rest)))
}

#[tactic(auto, unfolding(crsm_base::specs::Reading::cas_at))]
fn take_cas(alloc: Global, bytes: &[u8]) -> Result<Option<(Op, &[u8])>, NoMemory>
    ensures { IfOk result (λ r. option_map (λ x. (x.0, x.1.now)) r ≡ cas_at bytes.now) }
{
    let Ok(taken) = take_key(alloc, bytes) else {
        return Err(NoMemory);
    };
    let Some((key, rest)) = taken else {
        return Ok(None);
    };
    let Ok(taken) = take_two(alloc, rest) else {
        drop(key);
        return Err(NoMemory);
    };
    let Some(((expected, new), rest)) = taken else {
        drop(key);
        return Ok(None);
    };
    Ok(Some((Op::Cas(key, expected, new), rest)))
}

/// Parses an operation at the beginning of `bytes`. Returns it and the remaining bytes, or `None` if they do not begin
/// with one; `NoMemory` if memory runs out.
#[tactic(auto, unfolding(crsm_base::specs::Reading::op_at))]
pub fn take_op(alloc: Global, bytes: &[u8]) -> Result<Option<(Op, &[u8])>, NoMemory>
    ensures { IfOk result (λ r. option_map (λ x. (x.0, x.1.now)) r ≡ op_at bytes.now) }
{
    let Some((tag, rest)) = take_u8(bytes) else {
        return Ok(None);
    };
    match tag {
        1 => take_get(alloc, rest),
        2 => take_put(alloc, rest),
        3 => take_delete(alloc, rest),
        4 => take_cas(alloc, rest),
        _ => Ok(None),
    }
}

/// Parses a command at the beginning of `bytes`. Returns it and the remaining bytes, or `None` if they do not begin
/// with one; `NoMemory` if memory runs out.
#[tactic(auto, unfolding(crsm_base::specs::Reading::command_at))]
pub fn take_command(alloc: Global, bytes: &[u8]) -> Result<Option<(Command, &[u8])>, NoMemory>
    ensures { IfOk result (λ r. option_map (λ x. (x.0, x.1.now)) r ≡ command_at bytes.now) }
{
    let Some((client, rest)) = take_u64(bytes) else {
        return Ok(None);
    };
    let Some((number, rest)) = take_u64(rest) else {
        return Ok(None);
    };
    match take_op(alloc, rest) {
        Ok(Some((op, rest))) => Ok(Some((Command { client, number, op }, rest))),
        Ok(None) => Ok(None),
        Err(NoMemory) => Err(NoMemory),
    }
}

/// Parses an entry at the beginning of `bytes`. Returns it and the remaining bytes, or `None` if they do not begin with
/// one; `NoMemory` if memory runs out.
#[tactic(auto, unfolding(crsm_base::specs::Reading::entry_at))]
pub fn take_entry(alloc: Global, bytes: &[u8]) -> Result<Option<(Entry, &[u8])>, NoMemory>
    ensures { IfOk result (λ r. option_map (λ x. (x.0, x.1.now)) r ≡ entry_at bytes.now) }
{
    let Some((epoch, rest)) = take_u64(bytes) else {
        return Ok(None);
    };
    let Some((stamp, rest)) = take_stamp(rest) else {
        return Ok(None);
    };
    match take_command(alloc, rest) {
        Ok(Some((command, rest))) => Ok(Some((
            Entry {
                epoch,
                stamp,
                command,
            },
            rest,
        ))),
        Ok(None) => Ok(None),
        Err(NoMemory) => Err(NoMemory),
    }
}
