//! Stamps in ascending order.

ghost use Rattle.std.specs.Prelude.{◌≡◌, ◌<◌, ◌≤◌, [], OnErr, OnOk, IfOk, IfNone, IfSome, drop, vec_len, length};
ghost use Rattle.crsm_spec.specs.Frames.{with_stamp};
ghost use Rattle.crsm_phase.specs.Owed.{IsAscending, without};
ghost use Rattle.crsm_commit.specs.Places.{IsPlace, IsFirst};

use crsm_base::{NoMemory, Stamp};
use std::alloc::Global;
use std::marker::Model;

/// A list of stamps in ascending order, in one piece. Removing the first does not move the others; once half of the
/// items are removed ones, the stamps are moved to the start.
#[derive(Drop)]
pub struct Stamps {
    items: Vec<Stamp>,
    /// Number of removed items at the start.
    prefix: usize,
}

impl Model for Stamps {
    ghost use Rattle.std.specs.Prelude.{List, drop, vec_len, ◌≤◌};
    ghost use Rattle.crsm_base.specs.declared.Stamp.{Stamp};
    ghost use Rattle.crsm_phase.specs.Owed.{IsAscending};

    ghost Value = { List Stamp };

    ghost view = { λ s. drop s.prefix s.items.items };

    ghost invariant = { λ s. (s.prefix ≤ vec_len s.items) × IsAscending (drop s.prefix s.items.items) };
}

impl Stamps {
    /// Returns the empty list.
    pub fn new(alloc: Global) -> Stamps
        ensures { result ≡ [] }
    {
        Stamps {
            items: Vec::new(alloc),
            prefix: 0,
        }
    }

    /// Returns the stamps in ascending order.
    pub fn as_slice(&self) -> &[Stamp]
        ensures value { result.now ≡ self.now }
        ensures ascending { IsAscending self.now }
    {
        &self.items[self.prefix..]
    }

    /// Adds a stamp and returns its index. `NoMemory` if memory runs out; nothing has changed then.
    pub fn add(&mut self, stamp: Stamp) -> Result<usize, NoMemory>
        ensures place { IfOk result (λ place. IsPlace stamp self.old place) }
        ensures ok { OnOk result (self.new ≡ with_stamp stamp self.old) }
        ensures err { OnErr result (self.new ≡ self.old) }
    {
        let place = place_for(self.as_slice(), stamp);
        self.items.insert(self.prefix + place, stamp)?;
        Ok(place)
    }

    /// Removes the first stamp that is equal to this one, and returns its index, or `None` if there is none.
    pub fn remove(&mut self, stamp: Stamp) -> Option<usize>
        ensures place { IfSome result (λ place. IsFirst stamp self.old place) }
        ensures none { IfNone result (without stamp self.old ≡ self.old) }
        ensures rest { self.new ≡ without stamp self.old }
    {
        let place = place_of(self.as_slice(), stamp)?;
        if place == 0 {
            self.prefix += 1;
            self.compact();
        } else {
            self.items.remove(self.prefix + place);
        }
        Some(place)
    }

    /// Moves the stamps to the start if at least half of the items are removed ones.
    fn compact(&mut self)
        ensures { self.new ≡ self.old }
    {
        let rest = self.items.len() - self.prefix;
        if rest <= self.prefix {
            self.items.copy_within(self.prefix.., 0);
            self.items.truncate(rest);
            self.prefix = 0;
        }
    }
}

/// Returns how many of the stamps are not above this one. The times of new stamps rise, so the search begins at the
/// end.
fn place_for(stamps: &[Stamp], stamp: Stamp) -> usize
    requires { IsAscending stamps.now }
    ensures { IsPlace stamp stamps.now result }
{
    let mut place = stamps.len();
    while place > 0 && stamp < stamps[place - 1] {
        place -= 1;
    }
    place
}

/// Returns the first index of the stamp, or `None` if it is not in the list.
fn place_of(stamps: &[Stamp], stamp: Stamp) -> Option<usize>
    ensures some { IfSome result (λ place. IsFirst stamp stamps.now place) }
    ensures none { IfNone result (without stamp stamps.now ≡ stamps.now) }
{
    for place in 0..stamps.len() {
        if stamps[place] == stamp {
            return Some(place);
        }
    }
    None
}
