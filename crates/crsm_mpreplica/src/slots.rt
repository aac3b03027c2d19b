//! Maps to which slots are added in ascending order.

ghost use Rattle.std.specs.Prelude.{◌≡◌, ◌<◌, ◌++◌, ◌∷◌, [], IsTrue, OnOk};
ghost use Rattle.std.specs.List.{All};
ghost use Rattle.std.specs.BTreeMap.{keys};

use crsm_base::{NoMemory, never};
use std::collections::BTreeMap;

/// Returns whether the slot is after all slots of a map.
fn is_behind<V>(map: &BTreeMap<u64, V>, slot: u64) -> bool
    ensures { IsTrue result → All (λ other. other < slot) (keys map.now) }
{
    match map.last_key_value() {
        Some((last, _)) => *last < slot,
        None => true,
    }
}

/// Adds a value at a slot after all others.
pub(crate) fn push_slot<V: Drop>(
    map: &mut BTreeMap<u64, V>,
    slot: u64,
    value: V,
) -> Result<(), NoMemory>
    ensures entries { OnOk result (map.new.entries ≡ map.old.entries ++ (slot, value) ∷ []) }
    ensures behind { OnOk result (All (λ other. other < slot) (keys map.old)) }
{
    if !is_behind(map, slot) {
        // A leader takes one slot after the other.
        return Err(never());
    }
    map.insert(slot, value)?;
    Ok(())
}
