//! Counts of the blocks of a list.

ghost use Rattle.std.specs.Prelude.{◌≡◌, ◌<◌, ◌≤◌, ◌^◌, ◌+◌, ◌*◌, [], ◌∷◌, ◌++◌, ℕ, List, Some, OnOk, drop, length, slice_get, slice_set};
ghost use Rattle.std.specs.List.{AllByRecursion, count_by};
ghost use Rattle.crsm_sim_network.specs.Tally.{AreBlocks, IsClass, is_wanted};

use crate::counts::Counts;
use crsm_base::NoMemory;

/// Counts one more element at index `place`, after all others, in blocks of `size`.
pub(crate) fn add(
    blocks: &mut Vec<Counts>,
    size: usize,
    place: usize,
    class: u8,
) -> Result<(), NoMemory>
    requires size { 0 < size }
    requires class { class < 32 }
    ensures { (xs : List ℕ) → length xs < 2 ^ 63 → place ≡ length xs → AreBlocks size blocks.old.items xs → OnOk result (AreBlocks size blocks.new.items (xs ++ class ∷ [])) }
{
    let block = place / size;
    if block < blocks.len() {
        let counts = &mut blocks[block];
        counts.add(class);
        return Ok(());
    }
    // The element is the first of its block.
    let mut counts = Counts::new();
    counts.add(class);
    blocks.push(counts)?;
    Ok(())
}

/// Moves the count of the element at index `place` from one class to another.
pub(crate) fn change(blocks: &mut Vec<Counts>, size: usize, place: usize, from: u8, to: u8)
    requires size { 0 < size }
    requires from { from < 32 }
    requires to { to < 32 }
    ensures { (xs : List ℕ) → length xs < 2 ^ 63 → slice_get xs place ≡ Some from → AreBlocks size blocks.old.items xs → AreBlocks size blocks.new.items (slice_set xs place to) }
{
    let block = place / size;
    if block < blocks.len() {
        let counts = &mut blocks[block];
        counts.change(from, to);
    }
}

/// Returns the block with the `j`-th element of the wanted classes, counted from the start of block `first`, and the
/// number of such elements in that block before it.
pub(crate) fn find(blocks: &[Counts], first: usize, wanted: &[bool], j: u64) -> (usize, u64)
    ensures { (size : ℕ) (xs : List ℕ) → length xs < 2 ^ 63 → AllByRecursion IsClass xs → AreBlocks size blocks.now xs
        → j + count_by (is_wanted wanted.now) (drop (result.0 * size) xs) ≡ result.1 + count_by (is_wanted wanted.now) (drop (first * size) xs) }
{
    let mut block = first;
    let mut before = j;
    while block < blocks.len() {
        let count = blocks[block].count(wanted);
        if before < count {
            return (block, before);
        }
        before -= count;
        block += 1;
    }
    (block, before)
}

/// Does the same as `find`, from the first of the `fan` blocks that a block of the level above consists of. `above` is
/// that block's number and the number of wanted elements in it before the sought one.
pub(crate) fn find_within(
    blocks: &[Counts],
    above: (usize, u64),
    fan: usize,
    wanted: &[bool],
) -> (usize, u64)
    ensures { (size : ℕ) (xs : List ℕ) → 1 ≤ size → length xs < 2 ^ 63 → AllByRecursion IsClass xs → AreBlocks size blocks.now xs
        → above.1 + count_by (is_wanted wanted.now) (drop (result.0 * size) xs) ≡ result.1 + count_by (is_wanted wanted.now) (drop (above.0 * fan * size) xs) }
{
    let (block, before) = above;
    find(blocks, block.saturating_mul(fan), wanted, before)
}
