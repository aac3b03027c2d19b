//! The replicas that have logged each stamp.

ghost use Rattle.std.specs.Prelude.{◌≡◌, ℕ, [], ◌^◌, ◌<◌, OnOk, OnErr, if◌then◌else◌};
ghost use Rattle.crsm_base.specs.Order.{stamp_eq};
ghost use Rattle.crsm_base.specs.declared.Stamp.{Stamp};
ghost use Rattle.crsm_commit.specs.Masks.{mask_at};

use crsm_base::{NoMemory, Stamp};
use std::alloc::Global;
use std::collections::BTreeMap;
use std::marker::Model;

/// For each stamp a mask of the replicas that have logged it: bit k is that of replica k. A stamp without a mask has no
/// bit set.
#[derive(Drop)]
pub struct Votes {
    masks: BTreeMap<Stamp, u16>,
}

impl Model for Votes {
    ghost use Rattle.std.specs.Prelude.{List, ℕ};
    ghost use Rattle.crsm_base.specs.declared.Stamp.{Stamp};

    ghost Value = { List (Stamp × ℕ) };

    ghost view = { λ v. v.masks.entries };
}

impl Votes {
    /// Returns the state without masks.
    pub fn new(alloc: Global) -> Votes
        ensures { result ≡ [] }
    {
        Votes {
            masks: BTreeMap::new(alloc),
        }
    }

    /// Returns the mask of the stamp, 0 if it has none.
    pub fn of(&self, stamp: Stamp) -> u16
        ensures { result ≡ mask_at self.now stamp }
    {
        self.masks.get(&stamp).copied().unwrap_or(0)
    }

    /// Sets the mask of the stamp. `NoMemory` if memory runs out; nothing has changed then.
    pub fn set(&mut self, stamp: Stamp, mask: u16) -> Result<(), NoMemory>
        ensures ok { OnOk result ((s : Stamp) → mask_at self.new s ≡ (if stamp_eq stamp s then mask else mask_at self.old s)) }
        ensures err { OnErr result (self.new ≡ self.old) }
    {
        self.masks.insert(stamp, mask)?;
        Ok(())
    }

    /// Removes the mask of the stamp.
    pub fn forget(&mut self, stamp: Stamp)
        ensures { (s : Stamp) → mask_at self.new s ≡ (if stamp_eq stamp s then 0 else mask_at self.old s) }
    {
        self.masks.remove(&stamp);
    }
}
