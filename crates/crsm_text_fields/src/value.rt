//! Encoding and parsing of keys and values.

ghost use Rattle.std.specs.Prelude.{◌≡◌, ◌∷◌, ◌++◌, IfOk, OnOk};
ghost use Rattle.std.specs.Option.{option_map};
ghost use Rattle.crsm_base.specs.Spelling.{key_bytes, FitsKey, val_bytes, FitsVal, option_bytes, FitsOption};
ghost use Rattle.crsm_base.specs.Reading.{key_at, val_at, option_val_at};

use crate::number::{put_u8, put_u16, take_u8, take_u16};
use crsm_base::{Bytes, Key, MAX_KEY_BYTES, MAX_VAL_BYTES, NoMemory, Val};
use std::alloc::Global;

/// Appends the encoding of a key. `NoMemory` if memory runs out; a prefix may then have been appended.
#[tactic(auto, unfolding(crsm_base::specs::Spelling::key_bytes))]
pub fn put_key(key: &Key, out: &mut Bytes) -> Result<(), NoMemory>
    requires { FitsKey key.now }
    ensures { OnOk result (out.new ≡ out.old ++ key_bytes key.now) }
{
    let bytes = key.as_slice();
    put_u8(bytes.len() as u8, out)?;
    out.append(bytes)
}

/// Appends a tag byte and the encoding of a key. `NoMemory` if memory runs out; a prefix may then have been appended.
#[tactic(auto, unfolding(crsm_base::specs::Spelling::key_bytes))]
pub fn put_tagged_key(tag: u8, key: &Key, out: &mut Bytes) -> Result<(), NoMemory>
    requires { FitsKey key.now }
    ensures { OnOk result (out.new ≡ out.old ++ tag ∷ key_bytes key.now) }
{
    let bytes = key.as_slice();
    out.append(&[tag, bytes.len() as u8])?;
    out.append(bytes)
}

/// Appends the encoding of a value. `NoMemory` if memory runs out; a prefix may then have been appended.
#[tactic(auto, unfolding(crsm_base::specs::Spelling::val_bytes))]
pub fn put_val(val: &Val, out: &mut Bytes) -> Result<(), NoMemory>
    requires { FitsVal val.now }
    ensures { OnOk result (out.new ≡ out.old ++ val_bytes val.now) }
{
    let bytes = val.as_slice();
    put_u16(bytes.len() as u16, out)?;
    out.append(bytes)
}

/// Appends the encoding of an optional value. `NoMemory` if memory runs out; a prefix may then have been appended.
pub fn put_option_val(val: &Option<Val>, out: &mut Bytes) -> Result<(), NoMemory>
    requires { FitsOption FitsVal val.now }
    ensures { OnOk result (out.new ≡ out.old ++ option_bytes val_bytes val.now) }
{
    match val {
        None => put_u8(0, out),
        Some(val) => {
            put_u8(1, out)?;
            put_val(val, out)
        }
    }
}

/// Parses a key at the beginning of `bytes`. Returns it and the remaining bytes, or `None` if they do not begin with
/// one; `NoMemory` if memory runs out.
#[tactic(auto, unfolding(crsm_base::specs::Reading::key_at, crsm_base::specs::Reading::run_at))]
pub fn take_key(alloc: Global, bytes: &[u8]) -> Result<Option<(Key, &[u8])>, NoMemory>
    ensures { IfOk result (λ r. option_map (λ x. (x.0, x.1.now)) r ≡ key_at bytes.now) }
{
    let Some((len, rest)) = take_u8(bytes) else {
        return Ok(None);
    };
    if len < 1 || u32::from(len) > MAX_KEY_BYTES {
        return Ok(None);
    }
    let count = len as usize;
    if rest.len() < count {
        return Ok(None);
    }
    match Key::from_prefix(alloc, rest, count) {
        Ok(key) => Ok(Some((key, &rest[count..]))),
        Err(NoMemory) => Err(NoMemory),
    }
}

/// Parses a value at the beginning of `bytes`. Returns it and the remaining bytes, or `None` if they do not begin with
/// one; `NoMemory` if memory runs out.
#[tactic(auto, unfolding(crsm_base::specs::Reading::val_at, crsm_base::specs::Reading::run_at))]
pub fn take_val(alloc: Global, bytes: &[u8]) -> Result<Option<(Val, &[u8])>, NoMemory>
    ensures { IfOk result (λ r. option_map (λ x. (x.0, x.1.now)) r ≡ val_at bytes.now) }
{
    let Some((len, rest)) = take_u16(bytes) else {
        return Ok(None);
    };
    if u32::from(len) > MAX_VAL_BYTES {
        return Ok(None);
    }
    let count = len as usize;
    if rest.len() < count {
        return Ok(None);
    }
    match Val::from_prefix(alloc, rest, count) {
        Ok(val) => Ok(Some((val, &rest[count..]))),
        Err(NoMemory) => Err(NoMemory),
    }
}

/// Parses an optional value at the beginning of `bytes`. Returns it and the remaining bytes, or `None` if they do
/// not begin with one; `NoMemory` if memory runs out.
#[tactic(auto, unfolding(crsm_base::specs::Reading::option_val_at))]
pub fn take_option_val(
    alloc: Global,
    bytes: &[u8],
) -> Result<Option<(Option<Val>, &[u8])>, NoMemory>
    ensures { IfOk result (λ r. option_map (λ x. (x.0, x.1.now)) r ≡ option_val_at bytes.now) }
{
    match bytes {
        [] => Ok(None),
        [0, rest @ ..] => Ok(Some((None, rest))),
        [1, rest @ ..] => {
            match take_val(alloc, rest) {
                Ok(Some((val, rest))) => Ok(Some((Some(val), rest))),
                Ok(None) => Ok(None),
                Err(NoMemory) => Err(NoMemory),
            }
        }
        [_, ..] => Ok(None),
    }
}
