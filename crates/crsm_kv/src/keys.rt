//! The key map of the store, and the effect of an operation on it.

ghost use Rattle.std.specs.Prelude.{◌≡◌, ◌⊎◌, ◌||◌, false, nat_lt, length, is_some, IfOk, IsOk, OnErr, bytes_eq};
ghost use Rattle.std.specs.Option.{option_copied, option_eq};
ghost use Rattle.crsm_base.specs.Limits.{most_keys};
ghost use Rattle.crsm_base.specs.Store.{value_at, change_key, found, put_key, without_key, operate};
ghost use Rattle.crsm_base.specs.declared.Op.{Op as OpOnPaper};
ghost use Rattle.crsm_kv.specs.Operations.{key_of, has_value};

use crate::stored::StoredKey;
use crsm_base::{Answer, Key, MAX_KEYS, NoMemory, Op, Val};
use std::alloc::Global;
use std::collections::BTreeMap;

/// The values by their keys, in ascending key order.
pub type Keys = BTreeMap<StoredKey, Val>;

/// Returns the value of the key, or `None` if the key is missing.
#[tactic(auto, using(crate::proofs::KeysLemmas::keys_rules))]
fn value_of<'a>(keys: &'a Keys, key: &StoredKey) -> Option<&'a Val>
    ensures { option_copied result ≡ value_at key.now keys.now.entries }
{
    keys.get(key)
}

/// Returns whether the key exists or one more key fits. There is nearly always room, so the count is tested before the
/// key is looked up.
fn has_room(keys: &Keys, key: &StoredKey) -> bool
    ensures { result ≡ (is_some (value_at key.now keys.now.entries) || nat_lt (length keys.now.entries) most_keys) }
{
    keys.len() < MAX_KEYS as usize || value_of(keys, key).is_some()
}

/// Returns whether the value, or its absence, is the expected one.
fn is_expected(current: Option<&Val>, expected: &Option<Val>) -> bool
    ensures { result ≡ option_eq bytes_eq (option_copied current.entry) expected.now }
{
    match (current, expected) {
        (None, None) => true,
        (Some(current), Some(expected)) => current.as_slice() == expected.as_slice(),
        _ => false,
    }
}

fn copy_of(alloc: Global, value: Option<&Val>) -> Result<Option<Val>, NoMemory>
    ensures { IfOk result (λ copy. copy ≡ option_copied value.entry) }
{
    match value {
        Some(value) => Ok(Some(value.copy(alloc)?)),
        None => Ok(None),
    }
}

/// Returns the answer to a get of this value.
#[tactic(auto, unfolding(crsm_base::specs::Store::found))]
fn found(alloc: Global, value: Option<&Val>) -> Result<Answer, NoMemory>
    ensures { IfOk result (λ told. told ≡ found (option_copied value.entry)) }
{
    match value {
        Some(value) => Ok(Answer::Found(value.copy(alloc)?)),
        None => Ok(Answer::Missing),
    }
}

/// Returns a copy of the answer. `NoMemory` if memory runs out, which can happen only to an answer with a value.
pub fn second_copy(alloc: Global, answer: &Answer) -> Result<Answer, NoMemory>
    ensures copy { IfOk result (λ copy. copy ≡ answer.now) }
    ensures plain { has_value answer.now ≡ false → IsOk result }
{
    match answer {
        Answer::Done => Ok(Answer::Done),
        Answer::Missing => Ok(Answer::Missing),
        Answer::NoRoom => Ok(Answer::NoRoom),
        Answer::Stale(number) => Ok(Answer::Stale(*number)),
        Answer::Found(value) => Ok(Answer::Found(value.copy(alloc)?)),
        Answer::Differs(value) => Ok(Answer::Differs(copy_of(alloc, value.as_ref())?)),
    }
}

/// Sets the key, unless it is new and the store is full. `NoMemory` if memory runs out; the keys are then unchanged.
#[tactic(auto, using(crate::proofs::KeysLemmas::keys_rules), unfolding(crsm_base::specs::Store::put_key))]
fn put(alloc: Global, keys: &mut Keys, key: StoredKey, value: &Val) -> Result<Answer, NoMemory>
    ensures told { IfOk result (λ told. (keys.new.entries, told) ≡ put_key key value.now keys.old.entries) }
    ensures plain { IfOk result (λ told. has_value told ≡ false) }
    ensures err { OnErr result (keys.new.entries ≡ keys.old.entries) }
{
    if !has_room(keys, &key) {
        return Ok(Answer::NoRoom);
    }
    keys.insert(key, value.copy(alloc)?)?;
    Ok(Answer::Done)
}

/// Removes the key, and returns whether it existed.
#[tactic(auto, using(crate::proofs::KeysLemmas::keys_rules))]
fn remove(keys: &mut Keys, key: &StoredKey) -> bool
    ensures existed { result ≡ is_some (value_at key.now keys.old.entries) }
    ensures rest { keys.new.entries ≡ without_key key.now keys.old.entries }
{
    keys.remove(key).is_some()
}

/// Removes the key and returns the answer to that: `Missing` if it does not exist.
#[tactic(auto, unfolding(crsm_base::specs::Store::operate))]
fn delete(keys: &mut Keys, key: StoredKey) -> Answer
    ensures told { (keys.new.entries, result) ≡ operate keys.old.entries (OpOnPaper.Delete key) }
    ensures plain { has_value result ≡ false }
{
    if remove(keys, &key) {
        Answer::Done
    } else {
        Answer::Missing
    }
}

/// Sets the key to this value, or removes it if there is none. `NoMemory` if memory runs out; the keys are then
/// unchanged.
#[tactic(auto, unfolding(crsm_base::specs::Store::change_key))]
fn change(
    alloc: Global,
    keys: &mut Keys,
    key: StoredKey,
    new: &Option<Val>,
) -> Result<Answer, NoMemory>
    ensures told { IfOk result (λ told. (keys.new.entries, told) ≡ change_key key new.now keys.old.entries) }
    ensures plain { IfOk result (λ told. has_value told ≡ false) }
    ensures err { OnErr result (keys.new.entries ≡ keys.old.entries) }
{
    match new {
        Some(value) => put(alloc, keys, key, value),
        None => {
            let _ = remove(keys, &key);
            Ok(Answer::Done)
        }
    }
}

/// Returns the answer to a get of the key. `NoMemory` if memory runs out.
fn get(alloc: Global, keys: &Keys, key: StoredKey) -> Result<Answer, NoMemory>
    ensures { IfOk result (λ told. told ≡ found (value_at key keys.now.entries)) }
{
    found(alloc, value_of(keys, &key))
}

/// Sets the key to the second value, or removes it if there is none, if it has the first. `NoMemory` if memory runs
/// out; the keys are then unchanged.
#[tactic(auto, unfolding(crsm_base::specs::Store::operate))]
fn compare_and_set(
    alloc: Global,
    keys: &mut Keys,
    key: StoredKey,
    expected: &Option<Val>,
    new: &Option<Val>,
) -> Result<Answer, NoMemory>
    ensures told { IfOk result (λ told. (keys.new.entries, told) ≡ operate keys.old.entries (OpOnPaper.Cas key expected.now new.now)) }
    ensures plain { IfOk result (λ told. (has_value told ≡ false) ⊎ (keys.new.entries ≡ keys.old.entries)) }
    ensures err { OnErr result (keys.new.entries ≡ keys.old.entries) }
{
    let current = value_of(keys, &key);
    if !is_expected(current, expected) {
        return Ok(Answer::Differs(copy_of(alloc, current)?));
    }
    change(alloc, keys, key, new)
}

/// Returns the key of the operation.
fn key_of(op: &Op) -> &Key
    ensures { result.now ≡ key_of op.now }
{
    match op {
        Op::Get(key) => key,
        Op::Put(key, _) => key,
        Op::Delete(key) => key,
        Op::Cas(key, _, _) => key,
    }
}

/// Executes the operation on the keys, and returns its answer, which has a value only if no key changed. `NoMemory` if
/// memory runs out; the keys are then unchanged.
#[tactic(auto, unfolding(crsm_base::specs::Store::operate))]
pub fn execute(alloc: Global, keys: &mut Keys, op: &Op) -> Result<Answer, NoMemory>
    ensures told { IfOk result (λ told. (keys.new.entries, told) ≡ operate keys.old.entries op.now) }
    ensures plain { IfOk result (λ told. (has_value told ≡ false) ⊎ (keys.new.entries ≡ keys.old.entries)) }
    ensures err { OnErr result (keys.new.entries ≡ keys.old.entries) }
{
    let key = StoredKey::copy_of(alloc, key_of(op))?;
    match op {
        Op::Get(_) => get(alloc, keys, key),
        Op::Put(_, value) => put(alloc, keys, key, value),
        Op::Delete(_) => Ok(delete(keys, key)),
        Op::Cas(_, expected, new) => compare_and_set(alloc, keys, key, expected, new),
    }
}
