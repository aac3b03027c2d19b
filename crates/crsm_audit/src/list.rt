//! The searches in the entries of accounts, and the identities of entries.

ghost use Rattle.std.specs.Prelude.{◌≡◌, ◌≢◌, ◌<◌, ◌≤◌, ℕ, IfNone, IfOk, IfSome, IsTrue, Some, false, length, slice_get};
ghost use Rattle.crsm_base.specs.Spelling.{FitsEntry, entry_bytes};
ghost use Rattle.crsm_base.specs.declared.Entry.{Entry};
ghost use Rattle.crsm_audit.specs.Entries.{IsAnEntry};
ghost use Rattle.crsm_audit.specs.Lists.{Differs, IsWithin, WhereNamed};
ghost use Rattle.crsm_audit.specs.Lists as on_paper;

use crate::entries::AccountEntries;
use crate::place::ExecutedEntry;
use crsm_base::{Entry, NoMemory};
use crsm_codec::read_entry;
use std::alloc::Global;

/// Returns whether the list of executed entries has these bytes at this index.
fn has_at(entries: &AccountEntries, place: usize, bytes: &[u8]) -> bool
    ensures yes { IsTrue result → slice_get entries.now.list place ≡ Some bytes.now }
    ensures no { result ≡ false → slice_get entries.now.list place ≢ Some bytes.now }
{
    place < entries.list_len() && entries.list_at(place) == bytes
}

/// Returns the first index at which the other list of executed entries does not have this list's entry, or `None` if
/// the list is a prefix of the other.
pub(crate) fn first_difference(entries: &AccountEntries, one: &AccountEntries) -> Option<usize>
    ensures found { IfSome result (Differs entries.now.list one.now.list) }
    ensures none { IfNone result (IsWithin entries.now.list one.now.list) }
{
    for place in 0..entries.list_len() {
        if !has_at(one, place, entries.list_at(place)) {
            return Some(place);
        }
    }
    None
}

/// Returns an index not below `from` at which the list of held entries has these bytes, or `None`.
fn find_from(entries: &AccountEntries, from: usize, bytes: &[u8]) -> Option<usize>
    ensures found { IfSome result (λ p. slice_get entries.now.held p ≡ Some bytes.now) }
    ensures none { IfNone result ((p : ℕ) → from ≤ p → slice_get entries.now.held p ≢ Some bytes.now) }
{
    for place in from..entries.held_len() {
        if entries.held_at(place) == bytes {
            return Some(place);
        }
    }
    None
}

/// Returns an index at which the list of held entries has these bytes, or `None`. The search starts at `from`, and
/// continues from the beginning.
pub(crate) fn find_held(entries: &AccountEntries, from: usize, bytes: &[u8]) -> Option<usize>
    ensures found { IfSome result (λ p. slice_get entries.now.held p ≡ Some bytes.now) }
    ensures none { IfNone result ((p : ℕ) → slice_get entries.now.held p ≢ Some bytes.now) }
{
    match find_from(entries, from, bytes) {
        Some(place) => Some(place),
        None => find_from(entries, 0, bytes),
    }
}

/// Returns the identity of an entry.
fn name_of(entry: &Entry) -> ExecutedEntry
    ensures { result ≡ on_paper.place_of entry.now }
{
    ExecutedEntry {
        epoch: entry.epoch,
        stamp: entry.stamp,
        client: entry.command.client,
        number: entry.command.number,
    }
}

/// Returns the identity of an encoded entry. `NoMemory` if memory runs out.
fn place_of(alloc: Global, bytes: &[u8]) -> Result<ExecutedEntry, NoMemory>
    requires { IsAnEntry bytes.now }
    ensures { (e : Entry) → FitsEntry e → bytes.now ≡ entry_bytes e → IfOk result (λ place. place ≡ on_paper.place_of e) }
{
    let Some((entry, _)) = read_entry(alloc, bytes)? else {
        unreachable!();
    };
    let place = name_of(&entry);
    drop(entry);
    Ok(place)
}

/// Returns the identity of the executed entry with this index. `NoMemory` if memory runs out.
pub(crate) fn place_at(
    alloc: Global,
    entries: &AccountEntries,
    index: usize,
) -> Result<ExecutedEntry, NoMemory>
    requires { index < length entries.now.list }
    ensures { WhereNamed entries.now.list (λ places. IfOk result (λ place. slice_get places index ≡ Some place)) }
{
    let place = place_of(alloc, entries.list_at(index))?;
    Ok(place)
}
