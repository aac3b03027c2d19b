//! Lists of records.

ghost use Rattle.std.specs.Prelude.{◌≡◌, [], ◌∷◌, ◌++◌, OnOk, OnErr};

use crate::rec::MpRec;
use crsm_base::NoMemory;
use std::alloc::Global;
use std::marker::Model;

/// A list of records, as in a log body.
pub struct MpRecs {
    items: Vec<MpRec>,
}

// Written by hand, it is one call for the crates above, which would prove a derived one again.
impl Drop for MpRecs {
    fn drop(self) {
        let MpRecs { items: _ } = self;
    }
}

impl Model for MpRecs {
    ghost use Rattle.std.specs.Prelude.{List};
    ghost use Rattle.crsm_mpspec.specs.declared.rec.MpRec.{MpRec};

    ghost Value = { List MpRec };

    ghost view = { λ l. l.items.items };
}

impl MpRecs {
    /// Returns the empty list.
    pub fn new(alloc: Global) -> MpRecs
        ensures { result ≡ [] }
    {
        MpRecs {
            items: Vec::new(alloc),
        }
    }

    /// Appends a record. `NoMemory` if memory runs out; the list is then unchanged.
    pub fn push(&mut self, item: MpRec) -> Result<(), NoMemory>
        ensures ok { OnOk result (self.new ≡ self.old ++ item ∷ []) }
        ensures err { OnErr result (self.new ≡ self.old) }
    {
        self.items.push(item)?;
        Ok(())
    }

    /// Moves the records of another list to the end of this one. `NoMemory` if memory runs out; both are then
    /// unchanged.
    pub fn append(&mut self, other: &mut MpRecs) -> Result<(), NoMemory>
        ensures ok { OnOk result (self.new ≡ self.old ++ other.old) }
        ensures emptied { OnOk result (other.new ≡ []) }
        ensures err { OnErr result (self.new ≡ self.old) }
        ensures kept { OnErr result (other.new ≡ other.old) }
    {
        self.items.append(&mut other.items)?;
        Ok(())
    }

    /// Removes all records, and keeps the memory for further ones.
    pub fn clear(&mut self)
        ensures { self.new ≡ [] }
    {
        self.items.clear();
    }

    /// Returns the records in order.
    pub fn as_slice(&self) -> &[MpRec]
        ensures { result.now ≡ self.now }
    {
        self.items.as_slice()
    }
}
