//! Lists of pages.

ghost use Rattle.std.specs.Prelude.{◌≡◌, [], ◌∷◌, ◌++◌, OnOk, OnErr};
ghost use Rattle.crsm_suspend.specs.Pages.{without_last};

use crsm_base::{Entries, NoMemory};
use std::alloc::Global;
use std::marker::Model;

/// The entries of pages, one list per page.
#[derive(Drop)]
pub struct Pages {
    items: Vec<Entries>,
}

impl Model for Pages {
    ghost use Rattle.std.specs.Prelude.{List};
    ghost use Rattle.crsm_base.specs.declared.Entry.{Entry};

    ghost Value = { List (List Entry) };

    ghost view = { λ p. p.items.items };
}

impl Pages {
    /// Returns the empty list.
    pub fn new(alloc: Global) -> Pages
        ensures { result ≡ [] }
    {
        Pages {
            items: Vec::new(alloc),
        }
    }

    /// Appends a page. `NoMemory` if memory runs out; the list is then unchanged.
    pub fn push(&mut self, page: Entries) -> Result<(), NoMemory>
        ensures ok { OnOk result (self.new ≡ self.old ++ page ∷ []) }
        ensures err { OnErr result (self.new ≡ self.old) }
    {
        self.items.push(page)?;
        Ok(())
    }

    /// Removes the last page, if there is one.
    #[tactic(auto, unfolding(crate::specs::Pages::without_last))]
    pub fn drop_last(&mut self)
        ensures { self.new ≡ without_last self.old }
    {
        self.items.pop();
    }

    /// Returns the pages in order.
    pub fn as_slice(&self) -> &[Entries]
        ensures { result.now ≡ self.now }
    {
        self.items.as_slice()
    }
}
