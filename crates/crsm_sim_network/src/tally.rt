//! A list of classes with its counts.

ghost use Rattle.std.specs.Prelude.{◌≡◌, ◌<◌, [], ◌∷◌, ◌++◌, OnOk, drop, slice_set};
ghost use Rattle.std.specs.List.{count_by};
ghost use Rattle.crsm_sim_network.specs.Nth.{IsFrom, IsNth};
ghost use Rattle.crsm_sim_network.specs.Tally.{TallyStands, WhereTally, is_wanted};

use crate::blocks::{add, change, find, find_within};
use crate::counts::{Counts, is_among};
use crsm_base::NoMemory;
use std::alloc::Global;

/// Exclusive upper bound of a class.
pub const CLASSES: usize = 32;

/// Number of elements in a block.
const BLOCK: usize = 64;

/// Number of blocks in a group, and of groups in a span.
const FAN: usize = 16;

const GROUP: usize = 1_024;

const SPAN: usize = 16_384;

/// A list of classes that counts its elements by class.
#[derive(Drop)]
pub struct Tally {
    classes: Vec<u8>,
    all: Counts,
    blocks: Vec<Counts>,
    groups: Vec<Counts>,
    spans: Vec<Counts>,
}

impl Tally {
    /// Returns the empty list.
    pub fn new(alloc: Global) -> Tally
        ensures { TallyStands result [] }
    {
        Tally {
            classes: Vec::new(alloc),
            all: Counts::new(),
            blocks: Vec::new(alloc),
            groups: Vec::new(alloc),
            spans: Vec::new(alloc),
        }
    }

    /// Appends an element of this class. `NoMemory` if memory runs out.
    pub fn push(&mut self, class: u8) -> Result<(), NoMemory>
        requires { class < 32 }
        ensures { OnOk result (WhereTally self.old (λ xs. TallyStands self.new (xs ++ class ∷ []))) }
    {
        let place = self.classes.len();
        add(&mut self.blocks, BLOCK, place, class)?;
        add(&mut self.groups, GROUP, place, class)?;
        add(&mut self.spans, SPAN, place, class)?;
        self.all.add(class);
        self.classes.push(class)?;
        Ok(())
    }

    /// Sets the class of the element at index `place`.
    pub fn set(&mut self, place: usize, class: u8)
        requires { class < 32 }
        ensures { WhereTally self.old (λ xs. TallyStands self.new (slice_set xs place class)) }
    {
        if place < self.classes.len() {
            let from = self.classes[place];
            if from < CLASSES as u8 {
                change(&mut self.blocks, BLOCK, place, from, class);
                change(&mut self.groups, GROUP, place, from, class);
                change(&mut self.spans, SPAN, place, from, class);
                self.all.change(from, class);
                self.classes[place] = class;
            }
        }
    }

    /// Returns the number of elements of the wanted classes; `wanted` says it of each.
    pub fn count(&self, wanted: &[bool]) -> u64
        ensures { WhereTally self.now (λ xs. result ≡ count_by (is_wanted wanted.now) xs) }
    {
        self.all.count(wanted)
    }

    /// Returns the index of the `j`-th element of the wanted classes, `j` from 0.
    pub fn nth(&self, j: u64, wanted: &[bool]) -> usize
        ensures { WhereTally self.now (λ xs. j < count_by (is_wanted wanted.now) xs → IsNth (is_wanted wanted.now) xs j result) }
    {
        let span = find(self.spans.as_slice(), 0, wanted, j);
        let group = find_within(self.groups.as_slice(), span, FAN, wanted);
        let (block, before) = find_within(self.blocks.as_slice(), group, FAN, wanted);
        let first = block.saturating_mul(BLOCK);
        walk(self.classes.as_slice(), first, wanted, before)
    }
}

/// Returns the index of the `j`-th element of the wanted classes from index `first` on.
fn walk(classes: &[u8], first: usize, wanted: &[bool], j: u64) -> usize
    ensures { j < count_by (is_wanted wanted.now) (drop first classes.now) → IsFrom (is_wanted wanted.now) classes.now first j result }
{
    let mut place = first;
    let mut before = j;
    while place < classes.len() {
        if is_among(wanted, classes[place] as usize) {
            if before == 0 {
                return place;
            }
            before -= 1;
        }
        place += 1;
    }
    place
}
