//! Keys with their values, in ascending order of the keys, and their encoding.

ghost use Rattle.std.specs.Prelude.{◌≡◌, [], ◌∷◌, ◌++◌, IfErr, IfOk, OnOk, OnErr, Some, true};
ghost use Rattle.std.specs.Option.{option_map};
ghost use Rattle.crsm_base.specs.Parser.{many_at};
ghost use Rattle.crsm_base.specs.Spelling.{FitsKey, FitsVal};
ghost use Rattle.crsm_base.specs.Store.{bytes_lt};
ghost use Rattle.crsm_state.specs.Faults.{IsKeysFault};
ghost use Rattle.crsm_state.specs.Rows.{FitsKeyRows, key_row_at, key_row_bytes, key_rows_at, key_rows_bytes, keys_rise};

use crate::counts::counts_more;
use crate::error::HistoryError;
use crsm_base::{Bytes, Key, MAX_KEYS, NoMemory, Val};
use crsm_text_fields::{put_key, put_u32, put_val, take_key, take_u32, take_val};
use std::alloc::Global;
use std::marker::Model;

/// A key with its value.
pub type KeyRow = (Key, Val);

// Minimum encoded length of a key with its value: a key of one byte, and two lengths of one byte and of two.
const LEAST_ROW_BYTES: usize = 4;

/// A list of keys with their values.
pub struct KeyRows {
    items: Vec<KeyRow>,
}

// Written by hand, it is one call for the crates above, which would prove a derived one again.
impl Drop for KeyRows {
    fn drop(self) {
        let KeyRows { items: _ } = self;
    }
}

impl Model for KeyRows {
    ghost use Rattle.std.specs.Prelude.{List, ℕ};

    ghost Value = { List (List ℕ × List ℕ) };

    ghost view = { λ l. l.items.items };
}

impl KeyRows {
    /// Returns an empty list that allocates from `alloc`.
    pub fn new(alloc: Global) -> KeyRows
        ensures { result ≡ [] }
    {
        KeyRows {
            items: Vec::new(alloc),
        }
    }

    /// Appends a key with its value. `NoMemory` if memory runs out; the list is then unchanged.
    #[inline(always)]
    pub fn push(&mut self, row: KeyRow) -> Result<(), NoMemory>
        ensures ok { OnOk result (self.new ≡ self.old ++ row ∷ []) }
        ensures err { OnErr result (self.new ≡ self.old) }
    {
        self.items.push(row)?;
        Ok(())
    }

    /// Allocates memory for `additional` more rows. The rows do not change.
    pub fn reserve(&mut self, additional: usize) -> Result<(), NoMemory>
        ensures { self.new ≡ self.old }
    {
        self.items.reserve(additional)?;
        Ok(())
    }

    /// Returns the rows in order.
    pub fn as_slice(&self) -> &[KeyRow]
        ensures { result.now ≡ self.now }
    {
        self.items.as_slice()
    }
}

/// Appends the encoding of a key with its value. `NoMemory` if memory runs out; a prefix may then have been appended.
#[tactic(auto, unfolding(crate::specs::Rows::key_row_bytes))]
pub fn put_key_row(key: &Key, val: &Val, out: &mut Bytes) -> Result<(), NoMemory>
    requires key { FitsKey key.now }
    requires val { FitsVal val.now }
    ensures { OnOk result (out.new ≡ out.old ++ key_row_bytes (key.now, val.now)) }
{
    put_key(key, out)?;
    put_val(val, out)
}

/// Appends the encoding of a list of keys with their values. `NoMemory` if memory runs out; a prefix may then have been
/// appended.
#[tactic(auto, unfolding(crate::specs::Rows::key_rows_bytes, crate::specs::Rows::list_bytes))]
pub(crate) fn put_key_rows(rows: &KeyRows, out: &mut Bytes) -> Result<(), NoMemory>
    requires { FitsKeyRows rows.now }
    ensures { OnOk result (out.new ≡ out.old ++ key_rows_bytes rows.now) }
{
    let items = rows.as_slice();
    put_u32(items.len() as u32, out)?;
    for row in items {
        put_key_row(&row.0, &row.1, out)?;
    }
    Ok(())
}

#[tactic(auto, unfolding(crate::specs::Rows::key_row_at))]
fn take_key_row(alloc: Global, bytes: &[u8]) -> Result<Option<(KeyRow, &[u8])>, NoMemory>
    ensures { IfOk result (λ r. option_map (λ x. (x.0, x.1.now)) r ≡ key_row_at bytes.now) }
{
    let Ok(taken) = take_key(alloc, bytes) else {
        return Err(NoMemory);
    };
    let Some((key, rest)) = taken else {
        return Ok(None);
    };
    let Ok(taken) = take_val(alloc, rest) else {
        drop(key);
        return Err(NoMemory);
    };
    let Some((val, rest)) = taken else {
        drop(key);
        return Ok(None);
    };
    Ok(Some(((key, val), rest)))
}

// Parses so many keys with their values.
fn take_many_rows(
    alloc: Global,
    count: u32,
    bytes: &[u8],
) -> Result<Option<(KeyRows, &[u8])>, NoMemory>
    ensures { IfOk result (λ r. option_map (λ x. (x.0, x.1.now)) r ≡ many_at key_row_at count bytes.now) }
{
    let mut rows = KeyRows::new(alloc);
    // The count comes from the input: no more is reserved than the remaining bytes can hold.
    let room = (count as usize).min(bytes.len() / LEAST_ROW_BYTES);
    let Ok(()) = rows.reserve(room) else {
        drop(rows);
        return Err(NoMemory);
    };
    let mut rest = bytes;
    for _ in 0..count {
        let Ok(taken) = take_key_row(alloc, rest) else {
            drop(rows);
            return Err(NoMemory);
        };
        let Some((row, after)) = taken else {
            drop(rows);
            return Ok(None);
        };
        let Ok(()) = rows.push(row) else {
            drop(rows);
            return Err(NoMemory);
        };
        rest = after;
    }
    Ok(Some((rows, rest)))
}

/// Parses a list of at most 65,536 keys with their values at the beginning of `bytes`. Returns it and the remaining
/// bytes, or `None` if they do not begin with one; `NoMemory` if memory runs out.
#[tactic(auto, unfolding(crate::specs::Rows::key_rows_at, crate::specs::Rows::list_at))]
fn take_key_rows(alloc: Global, bytes: &[u8]) -> Result<Option<(KeyRows, &[u8])>, NoMemory>
    ensures { IfOk result (λ r. option_map (λ x. (x.0, x.1.now)) r ≡ key_rows_at bytes.now) }
{
    let Some((count, rest)) = take_u32(bytes) else {
        return Ok(None);
    };
    if count > MAX_KEYS {
        return Ok(None);
    }
    take_many_rows(alloc, count, rest)
}

// Returns whether a key is before another, in lexicographic order of their bytes.
fn key_precedes(a: &Key, b: &Key) -> bool
    ensures { result ≡ bytes_lt a.now b.now }
{
    a < b
}

#[tactic(auto, unfolding(crate::specs::Rows::keys_rise))]
fn keys_rise(rows: &[KeyRow]) -> bool
    ensures { result ≡ keys_rise rows.now }
{
    let Some((first, others)) = rows.split_first() else {
        return true;
    };
    let mut last = first;
    for row in others {
        if !key_precedes(&last.0, &row.0) {
            return false;
        }
        last = row;
    }
    true
}

/// Parses a list of at most 65,536 keys with their values, which rise strictly, at the beginning of `bytes`. Returns it
/// and the remaining bytes, or why they do not begin with one.
pub(crate) fn decode_keys(alloc: Global, bytes: &[u8]) -> Result<(KeyRows, &[u8]), HistoryError>
    ensures read { IfOk result (λ r. Some (r.0, r.1.now) ≡ key_rows_at bytes.now) }
    ensures rise { IfOk result (λ r. keys_rise r.0 ≡ true) }
    ensures fault { IfErr result (IsKeysFault bytes.now) }
{
    let Ok(taken) = take_key_rows(alloc, bytes) else {
        return Err(HistoryError::NoMemory);
    };
    let Some((rows, rest)) = taken else {
        if counts_more(bytes, MAX_KEYS) {
            return Err(HistoryError::TooManyKeys);
        }
        return Err(HistoryError::Keys);
    };
    if !keys_rise(rows.as_slice()) {
        drop(rows);
        return Err(HistoryError::KeyOrder);
    }
    Ok((rows, rest))
}
