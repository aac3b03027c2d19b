//! The union of the entries of reports.

ghost use Rattle.std.specs.Prelude.{◌≡◌, [], fold, flat_map, OnOk, IfOk};
ghost use Rattle.crsm_spec.specs.Collect.{with_new};
ghost use Rattle.crsm_spec.specs.Log.{above};

use crate::checks::is_above;
use crsm_base::{Entries, Entry, NoMemory, Stamp};
use std::alloc::Global;
use std::collections::BTreeMap;
use std::marker::Model;

/// Entries by ascending stamp, each stamp once.
#[derive(Drop)]
pub struct Union {
    alloc: Global,
    entries: BTreeMap<Stamp, Entry>,
}

impl Model for Union {
    ghost use Rattle.std.specs.Prelude.{List};
    ghost use Rattle.crsm_base.specs.declared.Entry.{Entry};
    ghost use Rattle.std.specs.BTreeMap.{values};
    ghost use Rattle.crsm_suspend.specs.Union.{IsByStamp};

    ghost Value = { List Entry };

    ghost view = { λ u. values u.entries };

    ghost invariant = { λ u. IsByStamp u.entries.entries };
}

impl Union {
    /// Returns the empty set.
    pub fn new(alloc: Global) -> Union
        ensures { result ≡ [] }
    {
        Union {
            alloc,
            entries: BTreeMap::new(alloc),
        }
    }

    /// Adds an entry, unless the set has its stamp. `NoMemory` if memory runs out.
    pub fn add(&mut self, entry: &Entry) -> Result<(), NoMemory>
        ensures { OnOk result (self.new ≡ with_new self.old entry.now) }
    {
        if self.entries.contains_key(&entry.stamp) {
            return Ok(());
        }
        let copy = entry.copy(self.alloc)?;
        drop(self.entries.insert(entry.stamp, copy)?);
        Ok(())
    }

    /// Adds the entries above a stamp. `NoMemory` if memory runs out.
    fn add_above(&mut self, floor: Option<Stamp>, entries: &[Entry]) -> Result<(), NoMemory>
        ensures { OnOk result (self.new ≡ fold with_new self.old (above floor entries.now)) }
    {
        for entry in entries {
            if !is_above(floor, entry.stamp) {
                continue;
            }
            self.add(entry)?;
        }
        Ok(())
    }

    /// Adds the pages' entries above a stamp. `NoMemory` if memory runs out.
    pub fn add_pages(&mut self, floor: Option<Stamp>, pages: &[Entries]) -> Result<(), NoMemory>
        ensures { OnOk result (self.new ≡ fold with_new self.old (above floor (flat_map (λ es. es) pages.now))) }
    {
        for page in pages {
            self.add_above(floor, page.as_slice())?;
        }
        Ok(())
    }

    /// Returns the entries by ascending stamp. `NoMemory` if memory runs out.
    pub fn into_entries(self) -> Result<Entries, NoMemory>
        ensures { IfOk result (λ entries. entries ≡ self) }
    {
        let mut entries = Entries::new(self.alloc);
        for entry in self.entries.into_values() {
            let Ok(()) = entries.push(entry) else {
                drop(entries);
                return Err(NoMemory);
            };
        }
        Ok(entries)
    }
}
