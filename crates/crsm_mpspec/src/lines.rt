//! Lists of lines.

ghost use Rattle.std.specs.Prelude.{◌≡◌, [], ◌∷◌, ◌++◌, ◌<◌, take, vec_capacity, vec_len, OnOk, OnErr};

use crate::line::MpLine;
use crsm_base::NoMemory;
use std::alloc::Global;
use std::marker::Model;

/// A list of lines of a transcript.
pub struct MpLines {
    items: Vec<MpLine>,
}

// Written by hand, it is one call for the crates above, which would prove a derived one again.
impl Drop for MpLines {
    fn drop(self) {
        let MpLines { items: _ } = self;
    }
}

impl Model for MpLines {
    ghost use Rattle.std.specs.Prelude.{List};
    ghost use Rattle.crsm_mpspec.specs.declared.line.MpLine.{MpLine};

    ghost Value = { List MpLine };

    ghost view = { λ l. l.items.items };
}

// Without this rare part `push` is so small that a line is written where it is to stand, and not copied there.
#[cold]
#[inline(never)]
fn make_room(items: &mut Vec<MpLine>) -> Result<(), NoMemory>
    ensures items { items.new.items ≡ items.old.items }
    ensures room { OnOk result (vec_len items.new < vec_capacity items.new) }
{
    items.reserve(1)?;
    Ok(())
}

impl MpLines {
    /// Returns the empty list.
    pub fn new(alloc: Global) -> MpLines
        ensures { result ≡ [] }
    {
        MpLines {
            items: Vec::new(alloc),
        }
    }

    /// Appends a line. `NoMemory` if memory runs out; the list is then unchanged.
    #[inline(always)]
    pub fn push(&mut self, item: MpLine) -> Result<(), NoMemory>
        ensures ok { OnOk result (self.new ≡ self.old ++ item ∷ []) }
        ensures err { OnErr result (self.new ≡ self.old) }
    {
        if self.items.len() == self.items.capacity() {
            make_room(&mut self.items)?;
        }
        self.items.push_reserved(item);
        Ok(())
    }

    /// Moves the lines of another list to the end of this one. `NoMemory` if memory runs out; both are then unchanged.
    pub fn append(&mut self, other: &mut MpLines) -> Result<(), NoMemory>
        ensures ok { OnOk result (self.new ≡ self.old ++ other.old) }
        ensures emptied { OnOk result (other.new ≡ []) }
        ensures err { OnErr result (self.new ≡ self.old) }
        ensures kept { OnErr result (other.new ≡ other.old) }
    {
        self.items.append(&mut other.items)?;
        Ok(())
    }

    /// Returns the lines in order.
    pub fn as_slice(&self) -> &[MpLine]
        ensures { result.now ≡ self.now }
    {
        self.items.as_slice()
    }

    /// Keeps the first `count` lines, and removes the others.
    pub fn truncate(&mut self, count: usize)
        ensures { self.new ≡ take count self.old }
    {
        self.items.truncate(count);
    }

    /// Removes all lines, and keeps the memory for further ones.
    pub fn clear(&mut self)
        ensures { self.new ≡ [] }
    {
        self.items.clear();
    }
}
