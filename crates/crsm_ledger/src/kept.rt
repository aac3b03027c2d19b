//! What is kept of a logged entry.

ghost use Rattle.std.specs.Prelude.{◌≡◌, List, IfOk};
ghost use Rattle.crsm_base.specs.declared.Entry.{Entry};
ghost use Rattle.crsm_base.specs.Spelling.{FitsEntry};
ghost use Rattle.crsm_ledger.specs.Sorted.{FitsKept, IsKeptFor};

use crsm_base::{Entry, NoMemory, Stamp};
use std::alloc::Global;

/// What is kept of a logged entry besides its stamp.
#[derive(Drop)]
pub enum Kept {
    /// The entry, which is not executed.
    Whole { entry: Box<Entry> },
    /// The index of the entry among the executed ones.
    Executed { place: u64 },
}

/// A logged entry.
#[derive(Drop)]
pub struct LoggedItem {
    pub stamp: Stamp,
    pub kept: Kept,
}

impl LoggedItem {
    /// Returns the whole entry as an item. `NoMemory` if memory runs out.
    pub fn of(alloc: Global, entry: Entry) -> Result<LoggedItem, NoMemory>
        ensures stamp { IfOk result (λ item. item.stamp ≡ entry.stamp) }
        ensures kept { (done : List Entry) → IfOk result (λ item. IsKeptFor done item entry) }
        ensures fit { FitsEntry entry → IfOk result (λ item. FitsKept item.kept) }
    {
        let stamp = entry.stamp;
        let entry = Box::new(alloc, entry)?;
        let kept = Kept::Whole { entry };
        Ok(LoggedItem { stamp, kept })
    }
}
