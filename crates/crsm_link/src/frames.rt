//! Lists of numbered frames.

ghost use Rattle.std.specs.Prelude.{◌≡◌, [], ◌∷◌, ◌++◌, OnOk, OnErr};

use crsm_base::{InEpoch, NoMemory};
use std::alloc::Global;
use std::marker::Model;

/// A list of payloads with their sequence numbers.
#[derive(Drop)]
pub struct Frames {
    items: Vec<(u64, InEpoch)>,
}

impl Model for Frames {
    ghost use Rattle.std.specs.Prelude.{List, ℕ};
    ghost use Rattle.crsm_base.specs.declared.InEpoch.{InEpoch};

    ghost Value = { List (ℕ × InEpoch) };

    ghost view = { λ l. l.items.items };
}

impl Frames {
    /// Returns the empty list.
    pub fn new(alloc: Global) -> Frames
        ensures { result ≡ [] }
    {
        Frames {
            items: Vec::new(alloc),
        }
    }

    /// Appends a frame. `NoMemory` if memory runs out; the list is then unchanged.
    pub fn push(&mut self, item: (u64, InEpoch)) -> Result<(), NoMemory>
        ensures ok { OnOk result (self.new ≡ self.old ++ item ∷ []) }
        ensures err { OnErr result (self.new ≡ self.old) }
    {
        self.items.push(item)?;
        Ok(())
    }

    /// Reserves memory for `additional` more frames. `NoMemory` if memory runs out; the list stays as it is.
    pub fn reserve(&mut self, additional: usize) -> Result<(), NoMemory>
        ensures { self.new ≡ self.old }
    {
        self.items.reserve(additional)?;
        Ok(())
    }

    /// Returns the frames in order.
    pub fn as_slice(&self) -> &[(u64, InEpoch)]
        ensures { result.now ≡ self.now }
    {
        self.items.as_slice()
    }
}
