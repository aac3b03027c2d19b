//! The logged entries of one epoch by ascending stamp. Those that are executed stand in the history, and not here.

ghost use Rattle.std.specs.Prelude.{◌≡◌, ◌<◌, ◌≤◌, ◌==◌, nat_lt, true, false, ℕ, [], List, insert, set, length, get_or, slice_get, drop, not, Some, OnOk, OnErr};
ghost use Rattle.std.specs.List.{list_any};
ghost use Rattle.std.specs.Option.{option_map_or};
ghost use Rattle.std.specs.List.Sorted.{IsPartitionPoint};
ghost use Rattle.crsm_base.specs.declared.Entry.{Entry};
ghost use Rattle.crsm_ledger.specs.declared.kept.LoggedItem.{LoggedItem};
ghost use Rattle.crsm_base.specs.Order.{stamp_eq, stamp_lt};
ghost use Rattle.crsm_ledger.specs.Held.{HasNext};
ghost use Rattle.crsm_ledger.specs.Sorted.{AreKeptFor, FitsKept, IsLogged, items_above, marked};
ghost use Rattle.crsm_base.specs.Spelling.{FitsEntry};
ghost use Rattle.crsm_spec.specs.Lists.{first_of};
ghost use Rattle.crsm_spec.specs.Log.{with_entry, above};
ghost use Rattle.crsm_spec.specs.Fits.{is_newest};

use crate::kept::{Kept, LoggedItem};
use crsm_base::{Entry, NoMemory, Stamp, is_same_stamp, stamp_precedes};
use std::alloc::Global;
use std::marker::Model;

/// What is kept of each logged entry, by ascending stamp.
#[derive(Drop)]
pub struct Logged {
    alloc: Global,
    items: Vec<LoggedItem>,
}

impl Model for Logged {
    ghost use Rattle.std.specs.Prelude.{List};
    ghost use Rattle.crsm_ledger.specs.declared.kept.LoggedItem.{LoggedItem};
    ghost use Rattle.crsm_ledger.specs.Sorted.{IsLogged};

    ghost Value = { List LoggedItem };

    ghost view = { λ l. l.items.items };

    ghost invariant = { λ l. IsLogged l.items.items };
}

#[tactic(auto, using(crate::proofs::LoggedLemmas::logged_rules))]
impl Logged {
    /// Returns the empty list.
    pub fn new(alloc: Global) -> Logged
        ensures { result ≡ [] }
    {
        Logged {
            alloc,
            items: Vec::new(alloc),
        }
    }

    /// Returns the number of entries.
    pub fn len(&self) -> usize
        ensures { result ≡ length self.now }
    {
        self.items.len()
    }

    /// Returns what is kept of the entry with this index.
    pub fn at(&self, index: usize) -> &LoggedItem
        requires { index < length self.now }
        ensures value { slice_get self.now index ≡ Some result.now }
        ensures fit { FitsKept result.now.kept }
    {
        item_at(self.items.as_slice(), index)
    }

    /// Inserts an entry by its stamp. `NoMemory` if memory runs out; the entries are then unchanged.
    pub fn insert(&mut self, entry: Entry) -> Result<(), NoMemory>
        requires { FitsEntry entry }
        ensures ok { (done es : List Entry) → AreKeptFor done self.old es → OnOk result (AreKeptFor done self.new (with_entry entry es)) }
        ensures err { OnErr result (self.new ≡ self.old) }
    {
        let item = LoggedItem::of(self.alloc, entry)?;
        let place = count_up_to(self.items.as_slice(), item.stamp);
        put_at(&mut self.items, place, item)?;
        Ok(())
    }

    /// Removes all entries, and keeps the memory for further ones.
    pub fn clear(&mut self)
        ensures { self.new ≡ [] }
    {
        self.items.clear();
    }

    /// Returns the index of the first entry above a stamp (at `None` of the first of all), or the number of entries if
    /// there is none.
    pub fn first_above(&self, stamp: Option<Stamp>) -> usize
        ensures bound { result ≤ length self.now }
        ensures items { drop result self.now ≡ items_above stamp self.now }
        ensures value { (done es : List Entry) → AreKeptFor done self.now es → drop result es ≡ above stamp es }
    {
        count_to(self.items.as_slice(), stamp)
    }

    /// Returns whether the first entry above `last` (at `None` the first of all) has this stamp.
    pub fn is_next(&self, last: Option<Stamp>, stamp: Stamp) -> bool
        ensures value { (done es : List Entry) → AreKeptFor done self.now es → result ≡ option_map_or (λ e. stamp_eq e.stamp stamp) (first_of (above last es)) false }
        ensures some { result ≡ true → HasNext last self.now }
    {
        has_stamp_at(self.items.as_slice(), self.first_above(last), stamp)
    }

    /// Returns whether each entry of the same origin has a smaller time.
    pub fn is_newest(&self, entry: &Entry) -> bool
        ensures { (done es : List Entry) → AreKeptFor done self.now es → result ≡ is_newest entry.now es }
    {
        is_newest_of(self.items.as_slice(), entry)
    }

    /// Keeps of the entry with this index only its place among the executed ones.
    pub fn mark_executed(&mut self, index: usize, place: u64)
        requires { index < length self.old }
        ensures { (item : LoggedItem) → slice_get self.old index ≡ Some item → self.new ≡ set self.old index (marked item place) }
    {
        mark_at(&mut self.items, index, place);
    }
}

fn item_at(items: &[LoggedItem], index: usize) -> &LoggedItem
    requires index { index < length items.now }
    requires logged { IsLogged items.now }
    ensures value { slice_get items.now index ≡ Some result.now }
    ensures fit { FitsKept result.now.kept }
{
    &items[index]
}

/// Inserts an item at an index, which is nearly always the end. `NoMemory` changes nothing.
#[tactic(auto, using(std::proofs::lemmas::List::Edits::insert_end))]
fn put_at(items: &mut Vec<LoggedItem>, place: usize, item: LoggedItem) -> Result<(), NoMemory>
    requires { place ≤ length items.old.items }
    ensures ok { OnOk result (items.new.items ≡ insert items.old.items place item) }
    ensures err { OnErr result (items.new.items ≡ items.old.items) }
{
    if place == items.len() {
        items.push(item)?;
    } else {
        items.insert(place, item)?;
    }
    Ok(())
}

/// Marks the item with this index as the executed entry with index `place`.
fn mark_at(items: &mut Vec<LoggedItem>, index: usize, place: u64)
    requires { index < length items.old.items }
    ensures { (d : LoggedItem) → items.new.items ≡ set items.old.items index (marked (get_or items.old.items index d) place) }
{
    items[index].kept = Kept::Executed { place };
}

/// Returns the number of items with no greater stamp. These are nearly always all but a few at the end: so the search
/// starts there, in doubled steps and then in halves.
fn count_up_to(items: &[LoggedItem], stamp: Stamp) -> usize
    requires { IsLogged items.now }
    ensures bound { result ≤ length items.now }
    ensures point { IsPartitionPoint (λ i. not (stamp_lt stamp i.stamp) ≡ true) (λ i. not (stamp_lt stamp i.stamp) ≡ false) items.now result }
{
    let mut low = 0;
    let mut high = items.len();
    let mut back: usize = 1;
    while low < high {
        let middle = middle_of(low, high, back);
        back = back.saturating_mul(2);
        if is_above_at(items, middle, stamp) {
            high = middle;
        } else {
            low = middle + 1;
        }
    }
    low
}

/// Returns an index below `high`: `back` before the last one, or halfway down to `low` if that is nearer.
fn middle_of(low: usize, high: usize, back: usize) -> usize
    requires { low < high }
    ensures above { low ≤ result }
    ensures below { result < high }
{
    high - 1 - back.min((high - low) / 2)
}

/// Returns whether the item at this index has a greater stamp.
fn is_above_at(items: &[LoggedItem], place: usize, stamp: Stamp) -> bool
    requires { place < length items.now }
    ensures { (d : LoggedItem) → result ≡ stamp_lt stamp (get_or items.now place d).stamp }
{
    stamp_precedes(stamp, items[place].stamp)
}

/// Returns the number of items with no greater stamp, at `None` 0.
#[tactic(auto, unfolding(crsm_spec::specs::Log::above, crate::specs::Sorted::items_above))]
fn count_to(items: &[LoggedItem], stamp: Option<Stamp>) -> usize
    requires { IsLogged items.now }
    ensures bound { result ≤ length items.now }
    ensures items { drop result items.now ≡ items_above stamp items.now }
    ensures value { (done es : List Entry) → AreKeptFor done items.now es → drop result es ≡ above stamp es }
{
    match stamp {
        None => 0,
        Some(stamp) => count_up_to(items, stamp),
    }
}

/// Returns whether there is an item at this index, and it has the stamp.
fn has_stamp_at(items: &[LoggedItem], index: usize, stamp: Stamp) -> bool
    ensures value { result ≡ option_map_or (λ i. stamp_eq i.stamp stamp) (slice_get items.now index) false }
    ensures within { result ≡ true → index < length items.now }
{
    match items.get(index) {
        Some(item) => is_same_stamp(item.stamp, stamp),
        None => false,
    }
}

/// Returns the number of items with a smaller time.
fn count_before(items: &[LoggedItem], time: u64) -> usize
    requires { IsLogged items.now }
    ensures bound { result ≤ length items.now }
    ensures point { IsPartitionPoint (λ i. nat_lt i.stamp.time time ≡ true) (λ i. nat_lt i.stamp.time time ≡ false) items.now result }
{
    let count = items.len();
    if count > 0 && is_before_at(items, count - 1, time) {
        // Nearly always all have.
        return count;
    }
    items.partition_point(|item| item.stamp.time < time)
}

/// Returns whether the item at this index has a smaller time.
fn is_before_at(items: &[LoggedItem], place: usize, time: u64) -> bool
    requires { place < length items.now }
    ensures { (d : LoggedItem) → result ≡ nat_lt (get_or items.now place d).stamp.time time }
{
    items[place].stamp.time < time
}

fn is_newest_of(items: &[LoggedItem], entry: &Entry) -> bool
    requires { IsLogged items.now }
    ensures { (done es : List Entry) → AreKeptFor done items.now es → result ≡ is_newest entry.now es }
{
    let later = &items[count_before(items, entry.stamp.time)..];
    !has_origin(later, entry.stamp.origin)
}

fn has_origin(items: &[LoggedItem], origin: u32) -> bool
    ensures { result ≡ list_any (λ i. i.stamp.origin == origin) items.now }
{
    items.iter().any(|item| item.stamp.origin == origin)
}
