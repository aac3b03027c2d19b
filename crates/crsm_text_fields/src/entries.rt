//! Encoding and parsing of lists of entries.

ghost use Rattle.std.specs.Prelude.{◌≡◌, ◌++◌, IfOk, OnOk};
ghost use Rattle.std.specs.Option.{option_map};
ghost use Rattle.crsm_base.specs.Spelling.{entries_bytes, FitsEntries};
ghost use Rattle.crsm_base.specs.Reading.{many_entries_at, is_rising, entries_at};

use crate::command::{put_entry, take_entry};
use crate::number::{put_u32, take_u32};
use crsm_base::{
    Bytes, Entries, Entry, MAX_TAIL_BYTES, MAX_TAIL_ENTRIES, NoMemory, entry_precedes,
};
use std::alloc::Global;

// Minimum encoded length of an entry in bytes: 33 of numbers, a tag, and a key of one byte with its length.
const LEAST_ENTRY_BYTES: usize = 36;

/// Appends the encoding of a list of entries. `NoMemory` if memory runs out; a prefix may then have been appended.
#[tactic(auto, unfolding(crsm_base::specs::Spelling::entries_bytes))]
pub fn put_entries(entries: &Entries, out: &mut Bytes) -> Result<(), NoMemory>
    requires { FitsEntries entries.now }
    ensures { OnOk result (out.new ≡ out.old ++ entries_bytes entries.now) }
{
    let items = entries.as_slice();
    put_u32(items.len() as u32, out)?;
    for entry in items {
        put_entry(entry, out)?;
    }
    Ok(())
}

#[tactic(auto, unfolding(crsm_base::specs::Reading::many_entries_at))]
fn take_many_entries(
    alloc: Global,
    count: u32,
    bytes: &[u8],
) -> Result<Option<(Entries, &[u8])>, NoMemory>
    ensures { IfOk result (λ r. option_map (λ x. (x.0, x.1.now)) r ≡ many_entries_at count bytes.now) }
{
    let mut entries = Entries::new(alloc);
    // The count comes from the input: no more is reserved than the remaining bytes can hold.
    let room = (count as usize).min(bytes.len() / LEAST_ENTRY_BYTES);
    let Ok(()) = entries.reserve(room) else {
        drop(entries);
        return Err(NoMemory);
    };
    let mut rest = bytes;
    for _ in 0..count {
        let Ok(taken) = take_entry(alloc, rest) else {
            drop(entries);
            return Err(NoMemory);
        };
        let Some((entry, after)) = taken else {
            drop(entries);
            return Ok(None);
        };
        let Ok(()) = entries.push(entry) else {
            drop(entries);
            return Err(NoMemory);
        };
        rest = after;
    }
    Ok(Some((entries, rest)))
}

/// Returns whether the entries strictly rise in the global order.
#[tactic(auto, unfolding(crsm_base::specs::Reading::is_rising))]
pub fn rises(entries: &[Entry]) -> bool
    ensures { result ≡ is_rising entries.now }
{
    let Some((first, others)) = entries.split_first() else {
        return true;
    };
    let mut last = first;
    for entry in others {
        if !entry_precedes(last, entry) {
            return false;
        }
        last = entry;
    }
    true
}

/// Parses a list of entries at the beginning of `bytes`. Returns it and the remaining bytes, or `None` if they do not
/// begin with one; `NoMemory` if memory runs out.
#[tactic(auto, unfolding(crsm_base::specs::Reading::entries_at))]
pub fn take_entries(alloc: Global, bytes: &[u8]) -> Result<Option<(Entries, &[u8])>, NoMemory>
    ensures { IfOk result (λ r. option_map (λ x. (x.0, x.1.now)) r ≡ entries_at bytes.now) }
{
    let Some((count, inner)) = take_u32(bytes) else {
        return Ok(None);
    };
    if count > MAX_TAIL_ENTRIES {
        return Ok(None);
    }
    let Ok(taken) = take_many_entries(alloc, count, inner) else {
        return Err(NoMemory);
    };
    let Some((entries, rest)) = taken else {
        return Ok(None);
    };
    if !rises(entries.as_slice()) {
        drop(entries);
        return Ok(None);
    }
    if inner.len() > rest.len() + MAX_TAIL_BYTES as usize {
        drop(entries);
        return Ok(None);
    }
    Ok(Some((entries, rest)))
}
