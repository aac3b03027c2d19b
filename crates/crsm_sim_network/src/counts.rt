//! Counts by class.

ghost use Rattle.std.specs.Prelude.{◌≡◌, ◌<◌, ◌^◌, [], ◌∷◌, ◌++◌, ℕ, List, Some, if◌then◌else◌, length, slice_get, slice_index, slice_set};
ghost use Rattle.std.specs.List.{AllByRecursion, count_by};
ghost use Rattle.crsm_sim_network.specs.Tally.{IsClass, IsCount, is_wanted};

use crate::tally::CLASSES;

/// The number of elements of each class.
#[derive(Clone, Copy)]
pub(crate) struct Counts {
    pub each: [u64; CLASSES],
}

/// Returns whether the class is wanted; `wanted` says it of each.
#[tactic(auto, unfolding(crate::specs::Tally::is_wanted))]
pub(crate) fn is_among(wanted: &[bool], class: usize) -> bool
    ensures { result ≡ is_wanted wanted.now class }
{
    match wanted.get(class) {
        Some(is_wanted) => *is_wanted,
        None => false,
    }
}

impl Counts {
    /// Returns the counts of no elements.
    pub fn new() -> Counts
        ensures { IsCount result.each [] }
    {
        Counts { each: [0; CLASSES] }
    }

    /// Counts one more element.
    pub fn add(&mut self, class: u8)
        requires { class < 32 }
        ensures { (xs : List ℕ) → length xs < 2 ^ 63 → IsCount self.old.each xs → IsCount self.new.each (xs ++ class ∷ []) }
    {
        self.each[class as usize] = self.each[class as usize].saturating_add(1);
    }

    /// Moves one element to another class.
    pub fn change(&mut self, from: u8, to: u8)
        requires from { from < 32 }
        requires to { to < 32 }
        ensures { (xs : List ℕ) (i : ℕ) → length xs < 2 ^ 63 → slice_get xs i ≡ Some from → IsCount self.old.each xs → IsCount self.new.each (slice_set xs i to) }
    {
        self.each[to as usize] = self.each[to as usize].saturating_add(1);
        self.each[from as usize] = self.each[from as usize].saturating_sub(1);
    }

    /// Returns the number of elements of this class, or 0 if it is not wanted.
    fn of_class(&self, class: usize, wanted: &[bool]) -> u64
        requires { class < 32 }
        ensures { result ≡ (if is_wanted wanted.now class then slice_index self.now.each class else 0) }
    {
        if is_among(wanted, class) {
            self.each[class]
        } else {
            0
        }
    }

    /// Returns the number of elements of the wanted classes.
    pub fn count(&self, wanted: &[bool]) -> u64
        ensures { (xs : List ℕ) → length xs < 2 ^ 63 → AllByRecursion IsClass xs → IsCount self.now.each xs → result ≡ count_by (is_wanted wanted.now) xs }
    {
        let mut sum: u64 = 0;
        for class in 0..CLASSES {
            sum = sum.saturating_add(self.of_class(class, wanted));
        }
        sum
    }
}
