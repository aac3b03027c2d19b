//! The values that a replica knows to be chosen.

ghost use Rattle.std.specs.Prelude.{◌≡◌, IfOk};

use crate::shared::SharedValue;
use crsm_base::NoMemory;
use std::alloc::Global;
use std::marker::Model;
use std::rc::Rc;

/// The value of a slot that is known to be chosen.
#[derive(Drop)]
pub struct MpChosen {
    pub slot: u64,
    pub value: SharedValue,
}

/// A list of the values that a replica knows to be chosen from a slot on, by slot.
pub struct MpChoices {
    items: Rc<Vec<MpChosen>>,
}

// Written by hand, it is one call for the crates above, which would prove a derived one again.
impl Drop for MpChoices {
    fn drop(self) {
        let MpChoices { items: _ } = self;
    }
}

impl Model for MpChoices {
    ghost use Rattle.std.specs.Prelude.{List};
    ghost use Rattle.crsm_mpspec.specs.declared.choices.MpChosen.{MpChosen};

    ghost Value = { List MpChosen };

    ghost view = { λ l. l.items.value.items };
}

impl MpChoices {
    /// Returns the list of these values. `NoMemory` if memory runs out.
    pub fn new(alloc: Global, items: Vec<MpChosen>) -> Result<MpChoices, NoMemory>
        ensures { IfOk result (λ list. list ≡ items.items) }
    {
        match Rc::new(alloc, items) {
            Ok(items) => Ok(MpChoices { items }),
            Err(_) => Err(NoMemory),
        }
    }

    /// Returns the values by slot.
    pub fn as_slice(&self) -> &[MpChosen]
        ensures { result.now ≡ self.now }
    {
        self.items.as_slice()
    }

    /// Returns the same list for one more owner. `NoMemory` if there are too many.
    pub fn share(&self) -> Result<MpChoices, NoMemory>
        ensures { IfOk result (λ copy. copy ≡ self.now) }
    {
        let items = self.items.clone()?;
        Ok(MpChoices { items })
    }
}
