//! Values by slot. Most slots are filled in order, and are in a list; those beyond a gap are in a map.

ghost use Rattle.std.specs.Prelude.{◌≡◌, [], ◌++◌, suc, length, is_some, OnOk, true, false};
ghost use Rattle.std.specs.Option.{option_copied};
ghost use Rattle.std.specs.Ordering.{nat_cmp};
ghost use Rattle.std.specs.Map.{lookup};
ghost use Rattle.std.specs.BTreeMap.{insert_entry, is_at};
ghost use Rattle.crsm_mpledger.specs.BySlot.{AreFrom, BeginsAt, SlotsStand, WhereSlots, numbered};

use crsm_base::NoMemory;
use std::alloc::Global;
use std::collections::BTreeMap;

/// The values of some slots.
#[derive(Drop)]
pub(crate) struct BySlot<V> {
    /// The values of the first slots, up to the first that has none.
    prefix: Vec<V>,
    /// The values of later slots.
    beyond: BTreeMap<u64, V>,
}

impl<V: Drop> BySlot<V> {
    /// Returns the state without values.
    pub(crate) fn new(alloc: Global) -> BySlot<V>
        ensures { SlotsStand result [] }
    {
        BySlot {
            prefix: Vec::new(alloc),
            beyond: BTreeMap::new(alloc),
        }
    }

    /// Reserves memory for `additional` more values. Nothing else changes.
    pub(crate) fn reserve(&mut self, additional: usize) -> Result<(), NoMemory>
        ensures { WhereSlots self.old (λ entries. SlotsStand self.new entries) }
    {
        self.prefix.reserve(additional)?;
        Ok(())
    }

    /// Returns the value of a slot, or `None` if it has none.
    pub(crate) fn get(&self, slot: u64) -> Option<&V>
        ensures { WhereSlots self.now (λ entries. option_copied result ≡ lookup (is_at (nat_cmp slot)) entries) }
    {
        if slot < self.prefix.len() as u64 {
            self.prefix.get(slot as usize)
        } else {
            self.beyond.get(&slot)
        }
    }

    /// Returns whether the slot has a value.
    pub(crate) fn has(&self, slot: u64) -> bool
        ensures { WhereSlots self.now (λ entries. result ≡ is_some (lookup (is_at (nat_cmp slot)) entries)) }
    {
        self.get(slot).is_some()
    }

    /// Returns the values of the first slots, up to the first that has none.
    pub(crate) fn prefix(&self) -> &[V]
        ensures { result.now ≡ self.now.prefix.items }
    {
        &self.prefix
    }

    /// Returns the values beyond the first slot that has none.
    pub(crate) fn beyond(&self) -> &BTreeMap<u64, V>
        ensures { result.now.entries ≡ self.now.beyond.entries }
    {
        &self.beyond
    }

    /// Sets the value of the slot. `NoMemory` if memory runs out.
    pub(crate) fn insert(&mut self, slot: u64, value: V) -> Result<(), NoMemory>
        ensures { OnOk result (WhereSlots self.old (λ entries. SlotsStand self.new (insert_entry nat_cmp entries slot value))) }
    {
        let len = self.prefix.len() as u64;
        if slot > len {
            self.beyond.insert(slot, value)?;
            return Ok(());
        }
        if slot < len {
            self.prefix[slot as usize] = value;
            return Ok(());
        }
        self.prefix.push(value)?;
        self.close_gap()?;
        Ok(())
    }

    /// Moves the values that follow the list without a gap to the list.
    fn close_gap(&mut self) -> Result<(), NoMemory>
        ensures { OnOk result (AreFrom (length self.old.prefix.items) self.old.beyond.entries →
            SlotsStand self.new (numbered 0 self.old.prefix.items ++ self.old.beyond.entries)) }
    {
        while self.is_next_beyond() {
            let Some((_, value)) = self.beyond.pop_first() else {
                return Ok(());
            };
            self.prefix.push(value)?;
        }
        Ok(())
    }

    /// Returns whether the slot after the list has a value.
    fn is_next_beyond(&self) -> bool
        ensures next { result ≡ true → BeginsAt (length self.now.prefix.items) self.now.beyond.entries }
        ensures apart { result ≡ false → AreFrom (length self.now.prefix.items) self.now.beyond.entries → AreFrom (suc (length self.now.prefix.items)) self.now.beyond.entries }
    {
        match self.beyond.first_key_value() {
            Some((slot, _)) => *slot == self.prefix.len() as u64,
            None => false,
        }
    }
}
