//! The entries of an account, each kept once.

ghost use Rattle.std.specs.Prelude.{◌≡◌, ◌<◌, ◌∷◌, ◌++◌, [], OnOk, Some, length, slice_get, slice_index};
ghost use Rattle.std.specs.List.{AllByRecursion};
ghost use Rattle.crsm_audit.specs.Entries.{AreWithin, IsAnEntry, Keeps, bodies_at, no_lists};

use crsm_base::{Bodies, NoMemory};
use std::alloc::Global;
use std::cmp::Ordering;
use std::marker::Model;

/// Encoded entries: the list of those that a node executed, and of those that it held, which it logged under its own
/// number. An entry that it held and then executed is kept once.
#[derive(Drop)]
pub struct AccountEntries {
    kept: Bodies,
    // The index in `kept` of each entry.
    list: Vec<usize>,
    held: Vec<usize>,
    // The index in `held` of the first entry that may be executed yet.
    next: usize,
}

impl Model for AccountEntries {
    ghost use Rattle.crsm_audit.specs.Entries.{AreKept, EntryLists, bodies_at};

    ghost Value = { EntryLists };

    ghost view = { λ e. record { list = bodies_at e.kept e.list.items; held = bodies_at e.kept e.held.items } };

    ghost invariant = { λ e. AreKept e.kept e.list.items e.held.items };
}

impl AccountEntries {
    /// Returns no entries.
    pub fn new(alloc: Global) -> AccountEntries
        ensures { result ≡ no_lists }
    {
        AccountEntries {
            kept: Bodies::new(alloc),
            list: Vec::new(alloc),
            held: Vec::new(alloc),
            next: 0,
        }
    }

    /// Returns the number of executed entries.
    pub fn list_len(&self) -> usize
        ensures { result ≡ length self.now.list }
    {
        self.list.len()
    }

    /// Returns the executed entry with this index.
    pub fn list_at(&self, index: usize) -> &[u8]
        requires { index < length self.now.list }
        ensures value { slice_get self.now.list index ≡ Some result.now }
        ensures entry { IsAnEntry result.now }
    {
        body_at(&self.kept, self.list.as_slice(), index)
    }

    /// Returns the number of held entries.
    pub fn held_len(&self) -> usize
        ensures { result ≡ length self.now.held }
    {
        self.held.len()
    }

    /// Returns the held entry with this index.
    pub fn held_at(&self, index: usize) -> &[u8]
        requires { index < length self.now.held }
        ensures value { slice_get self.now.held index ≡ Some result.now }
        ensures entry { IsAnEntry result.now }
    {
        body_at(&self.kept, self.held.as_slice(), index)
    }

    /// Adds a held entry. `NoMemory` if memory runs out.
    pub fn hold(&mut self, bytes: &[u8]) -> Result<(), NoMemory>
        requires { IsAnEntry bytes.now }
        ensures held { OnOk result (self.new.held ≡ self.old.held ++ bytes.now ∷ []) }
        ensures list { self.new.list ≡ self.old.list }
    {
        let place = keep(&mut self.kept, bytes)?;
        self.held.push(place)?;
        Ok(())
    }

    /// Adds an executed entry. `NoMemory` if memory runs out.
    pub fn execute(&mut self, bytes: &[u8]) -> Result<(), NoMemory>
        requires { IsAnEntry bytes.now }
        ensures list { OnOk result (self.new.list ≡ self.old.list ++ bytes.now ∷ []) }
        ensures held { self.new.held ≡ self.old.held }
    {
        self.next = skip_before(&self.kept, self.held.as_slice(), self.next, bytes);
        let place = place_for(&mut self.kept, self.held.as_slice(), self.next, bytes)?;
        self.list.push(place)?;
        Ok(())
    }
}

/// Returns the body at the place with this index.
fn body_at<'a>(kept: &'a Bodies, places: &[usize], index: usize) -> &'a [u8]
    requires index { index < length places.now }
    requires within { AreWithin kept.now places.now }
    ensures value { slice_get (bodies_at kept.now places.now) index ≡ Some result.now }
    ensures there { slice_get kept.now (slice_index places.now index) ≡ Some result.now }
{
    match kept.get(places[index]) {
        Some(bytes) => bytes,
        None => unreachable!(),
    }
}

/// Appends an entry, and returns its place. `NoMemory` if memory runs out; nothing has changed then.
fn keep(kept: &mut Bodies, bytes: &[u8]) -> Result<usize, NoMemory>
    requires entries { AllByRecursion IsAnEntry kept.old }
    requires entry { IsAnEntry bytes.now }
    ensures { Keeps kept.old bytes.now result kept.new }
{
    let place = kept.len();
    kept.push(bytes)?;
    Ok(place)
}

/// Returns the first index from `next` on of a held entry that is not before this one in the order of execution. Those
/// before it will not be executed: entries are executed in that order, in which encodings ascend as well.
fn skip_before(kept: &Bodies, held: &[usize], next: usize, bytes: &[u8]) -> usize
    requires { AreWithin kept.now held.now }
{
    let mut index = next;
    while index < held.len() && body_at(kept, held, index).cmp(bytes) == Ordering::Less {
        index += 1;
    }
    index
}

/// Returns the place of this entry: that of the held one with this index if it is the same, else the next one, to which
/// the entry is appended. `NoMemory` if memory runs out; nothing has changed then.
fn place_for(
    kept: &mut Bodies,
    held: &[usize],
    index: usize,
    bytes: &[u8],
) -> Result<usize, NoMemory>
    requires entries { AllByRecursion IsAnEntry kept.old }
    requires within { AreWithin kept.old held.now }
    requires entry { IsAnEntry bytes.now }
    ensures { Keeps kept.old bytes.now result kept.new }
{
    if index < held.len() && body_at(kept, held, index) == bytes {
        return Ok(held[index]);
    }
    keep(kept, bytes)
}
