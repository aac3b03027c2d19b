//! The values that a replica has accepted.

ghost use Rattle.std.specs.Prelude.{◌≡◌, IfOk};

use crate::shared::SharedValue;
use crsm_base::{Ballot, NoMemory};
use std::alloc::Global;
use std::marker::Model;
use std::rc::Rc;

/// A value that was accepted at a slot, with the ballot.
#[derive(Drop)]
pub struct MpAccepted {
    pub slot: u64,
    pub ballot: Ballot,
    pub value: SharedValue,
}

/// A list of the values that a replica has accepted from a slot on, by slot.
pub struct MpAccepts {
    items: Rc<Vec<MpAccepted>>,
}

// Written by hand, it is one call for the crates above, which would prove a derived one again.
impl Drop for MpAccepts {
    fn drop(self) {
        let MpAccepts { items: _ } = self;
    }
}

impl Model for MpAccepts {
    ghost use Rattle.std.specs.Prelude.{List};
    ghost use Rattle.crsm_mpspec.specs.declared.accepts.MpAccepted.{MpAccepted};

    ghost Value = { List MpAccepted };

    ghost view = { λ l. l.items.value.items };
}

impl MpAccepts {
    /// Returns the list of these values. `NoMemory` if memory runs out.
    pub fn new(alloc: Global, items: Vec<MpAccepted>) -> Result<MpAccepts, NoMemory>
        ensures { IfOk result (λ list. list ≡ items.items) }
    {
        match Rc::new(alloc, items) {
            Ok(items) => Ok(MpAccepts { items }),
            Err(_) => Err(NoMemory),
        }
    }

    /// Returns the values by slot.
    pub fn as_slice(&self) -> &[MpAccepted]
        ensures { result.now ≡ self.now }
    {
        self.items.as_slice()
    }

    /// Returns the same list for one more owner. `NoMemory` if there are too many.
    pub fn share(&self) -> Result<MpAccepts, NoMemory>
        ensures { IfOk result (λ copy. copy ≡ self.now) }
    {
        let items = self.items.clone()?;
        Ok(MpAccepts { items })
    }
}
