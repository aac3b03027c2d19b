//! Whether lists of entries can be encoded, and in how many bytes.

ghost use Rattle.std.specs.Prelude.{◌≤◌, IsTrue, length};
ghost use Rattle.std.specs.Option.{IfSome};
ghost use Rattle.crsm_base.specs.Spelling.{FitsEntries};
ghost use Rattle.crsm_wire.specs.Sized.{AreSized};

use crate::fields::entry_size;
use crsm_base::{Entries, Entry, MAX_TAIL_BYTES, MAX_TAIL_ENTRIES};
use crsm_text_fields::rises;

/// Returns the encoded length of all entries in bytes, or `None` if one cannot be encoded.
fn total_size(entries: &[Entry]) -> Option<u64>
    requires { length entries.now ≤ 4096 }
    ensures { IfSome result (λ size. AreSized entries.now size) }
{
    let mut total = 0;
    for entry in entries {
        total += entry_size(entry)?;
    }
    Some(total)
}

/// Returns whether the list can be encoded: it rises, and is within the limits of entries and bytes.
pub fn are_entries_spelt(entries: &Entries) -> bool
    ensures { IsTrue result → FitsEntries entries.now }
{
    let items = entries.as_slice();
    if items.len() > MAX_TAIL_ENTRIES as usize {
        return false;
    }
    if !rises(items) {
        return false;
    }
    match total_size(items) {
        Some(size) => size <= MAX_TAIL_BYTES as u64,
        None => false,
    }
}
