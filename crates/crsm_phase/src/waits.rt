//! The stamps with a pending acknowledgement.

ghost use Rattle.std.specs.Prelude.{◌≡◌, ◌<◌, ◌≤◌, [], length, OnOk, OnErr, IfNone, IfSome, insert, remove};
ghost use Rattle.std.specs.VecDeque.{deque_len};
ghost use Rattle.crsm_spec.specs.Clock.{issue};
ghost use Rattle.crsm_spec.specs.Lists.{first_of};
ghost use Rattle.crsm_spec.specs.Frames.{with_stamp};
ghost use Rattle.crsm_phase.specs.Owed.{IsAscending, due_of, without};

use crsm_base::{NoMemory, Stamp};
use crsm_clock::Rising;
use std::alloc::Global;
use std::collections::VecDeque;
use std::marker::Model;

/// The stamps that a replica logged for others and has not acknowledged yet. A contract sees their list in ascending
/// order.
#[derive(Drop)]
pub struct Waits {
    owed: VecDeque<Stamp>,
}

impl Model for Waits {
    ghost use Rattle.std.specs.Prelude.{List};
    ghost use Rattle.crsm_base.specs.declared.Stamp.{Stamp};
    ghost use Rattle.crsm_phase.specs.Owed.{IsAscending};

    ghost Value = { List Stamp };

    ghost view = { λ w. w.owed.items };

    ghost invariant = { λ w. IsAscending w.owed.items };
}

impl Waits {
    /// Returns the empty list.
    pub fn new(alloc: Global) -> Waits
        ensures { result ≡ [] }
    {
        Waits {
            owed: VecDeque::new(alloc),
        }
    }

    /// Adds a stamp. `NoMemory` if memory runs out; nothing has changed then.
    pub fn add(&mut self, stamp: Stamp) -> Result<(), NoMemory>
        ensures ok { OnOk result (self.new ≡ with_stamp stamp self.old) }
        ensures err { OnErr result (self.new ≡ self.old) }
    {
        let place = place_for(&self.owed, stamp);
        self.owed.insert(place, stamp)?;
        Ok(())
    }

    /// Returns the number of pending acknowledgements.
    pub fn len(&self) -> u64
        ensures { result ≡ length self.now }
    {
        self.owed.len() as u64
    }

    /// Returns the least stamp with a pending acknowledgement, or `None` if none is pending.
    #[tactic(auto, unfolding(crsm_spec::specs::Lists::first_of))]
    pub fn first(&self) -> Option<Stamp>
        ensures { result ≡ first_of self.now }
    {
        let least = *self.owed.front()?;
        Some(least)
    }

    /// Returns the least stamp with a pending acknowledgement if its time is below the time that `clock` would issue at
    /// this reading, else `None`.
    pub fn due(&self, clock: &Rising, reading: u64) -> Option<Stamp>
        ensures due { result ≡ due_of self.now (issue clock.now reading) }
        ensures ascending { IsAscending self.now }
    {
        let stamp = *self.owed.front()?;
        let time = clock.would(reading)?;
        if stamp.time < time { Some(stamp) } else { None }
    }

    /// Removes a stamp that is acknowledged.
    pub fn done(&mut self, stamp: Stamp)
        ensures { self.new ≡ without stamp self.old }
    {
        if let Some(place) = place_of(&self.owed, stamp) {
            self.owed.remove(place);
        }
    }
}

/// Returns how many of the ascending stamps are not above this one. The times of new stamps rise, so the search begins
/// at the end.
fn place_for(owed: &VecDeque<Stamp>, stamp: Stamp) -> usize
    requires { IsAscending owed.now.items }
    ensures within { result ≤ deque_len owed.now }
    ensures place { insert owed.now.items result stamp ≡ with_stamp stamp owed.now.items }
{
    let mut place = owed.len();
    while place > 0 && stamp < owed[place - 1] {
        place -= 1;
    }
    place
}

/// Returns the first index of the stamp, or `None` if it is not in the list.
fn place_of(owed: &VecDeque<Stamp>, stamp: Stamp) -> Option<usize>
    ensures within { IfSome result (λ place. place < deque_len owed.now) }
    ensures found { IfSome result (λ place. remove owed.now.items place ≡ without stamp owed.now.items) }
    ensures none { IfNone result (without stamp owed.now.items ≡ owed.now.items) }
{
    for place in 0..owed.len() {
        if owed[place] == stamp {
            return Some(place);
        }
    }
    None
}
