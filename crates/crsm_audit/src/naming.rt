//! The search for a dropped command among executed entries.

ghost use Rattle.std.specs.Prelude.{◌≡◌, ◌<◌, ◌≤◌, ◌-◌, false, IfOk, IsTrue, length};
ghost use Rattle.crsm_audit.specs.Judging.{IsNamed};
ghost use Rattle.crsm_audit.specs.Lists.{IsAscending, IsBeforeName, IsBetween, WhereNamed};

use crate::entries::AccountEntries;
use crate::list::place_at;
use crate::place::{Dropped, ExecutedEntry};
use crsm_base::NoMemory;
use std::alloc::Global;

/// Returns whether the entry is before this name: by epoch, then by stamp.
fn is_before(place: &ExecutedEntry, name: &Dropped) -> bool
    ensures yes { IsTrue result → IsBeforeName place.now.epoch place.now.stamp name.now.epoch name.now.stamp }
    ensures no { result ≡ false → IsBeforeName place.now.epoch place.now.stamp name.now.epoch name.now.stamp → ⊥ }
{
    if place.epoch != name.epoch {
        return place.epoch < name.epoch;
    }
    if place.stamp.time != name.stamp.time {
        return place.stamp.time < name.stamp.time;
    }
    place.stamp.origin < name.stamp.origin
}

/// Returns whether the entry has this name.
fn has_name(place: &ExecutedEntry, name: &Dropped) -> bool
    ensures yes { IsTrue result → (place.now.epoch ≡ name.now.epoch) × (place.now.stamp ≡ name.now.stamp) }
    ensures no { result ≡ false → place.now.epoch ≡ name.now.epoch → place.now.stamp ≡ name.now.stamp → ⊥ }
{
    place.epoch == name.epoch && place.stamp == name.stamp
}

/// Returns the half of `low..high` that can still hold the name: one step of binary search. `NoMemory` if memory runs
/// out.
fn halve(
    alloc: Global,
    one: &AccountEntries,
    name: &Dropped,
    low: usize,
    high: usize,
) -> Result<(usize, usize), NoMemory>
    requires some { low < high }
    requires within { high ≤ length one.now.list }
    ensures closer { IfOk result (λ half. (low ≤ half.0) × (half.0 ≤ half.1) × (half.1 ≤ high)) }
    ensures less { IfOk result (λ half. half.1 - half.0 < high - low) }
    ensures between { WhereNamed one.now.list (λ places. IfOk result (λ half. IsAscending places → IsBetween places name.now low high → IsBetween places name.now half.0 half.1)) }
{
    let middle = low + (high - low) / 2;
    let place = place_at(alloc, one, middle)?;
    if is_before(&place, name) {
        return Ok((middle + 1, high));
    }
    Ok((low, middle))
}

/// Returns whether one of the executed entries, which ascend, has this name. `NoMemory` if memory runs out.
pub(crate) fn is_named(
    alloc: Global,
    one: &AccountEntries,
    name: &Dropped,
) -> Result<bool, NoMemory>
    ensures yes { WhereNamed one.now.list (λ places. IfOk result (λ named. IsTrue named → IsNamed places name.now)) }
    ensures no { WhereNamed one.now.list (λ places. IfOk result (λ named. IsAscending places → named ≡ false → IsNamed places name.now → ⊥)) }
{
    let mut low = 0;
    let mut high = one.list_len();
    while low < high {
        (low, high) = halve(alloc, one, name, low, high)?;
    }
    if low == one.list_len() {
        return Ok(false);
    }
    let place = place_at(alloc, one, low)?;
    Ok(has_name(&place, name))
}
