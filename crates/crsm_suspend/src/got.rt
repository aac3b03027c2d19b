//! The outcome of adding a page to a collection.

ghost use Rattle.std.specs.Prelude.{◌≡◌};
ghost use Rattle.crsm_suspend.specs.Collecting.{got_more, got_decided};

use crate::sizes::total_size;
use crsm_base::{Decision, MAX_TAIL_BYTES, MAX_TAIL_ENTRIES, Stamp};

/// The outcome of adding a page to a collection.
#[derive(Drop)]
pub enum PageOutcome {
    /// The page was not asked for, and nothing has changed.
    Stranger,
    /// The page was added and is not the last: the replica's next entries, above this stamp, are to be asked for.
    More { from: u32, after: Stamp },
    /// The page was added and is the last of its replica. No majority is whole yet.
    Kept,
    /// The page was added and is the last of its replica. A majority is whole and leads to this decision.
    Complete(Decision),
    /// As `Complete`, but the decision's tail exceeds a limit: it has `count` entries of `bytes` bytes together.
    TooMany { count: u64, bytes: u128 },
}

/// Returns `More` for the entries above `cursor`, or `Stranger` without a cursor.
pub fn more(from: u32, cursor: Option<Stamp>) -> PageOutcome
    ensures { result ≡ got_more from cursor }
{
    match cursor {
        Some(after) => PageOutcome::More { from, after },
        None => PageOutcome::Stranger,
    }
}

/// Returns `Complete` with the decision, or `TooMany` if its tail exceeds a limit.
pub fn decided(decision: Decision) -> PageOutcome
    ensures { result ≡ got_decided decision }
{
    let count = decision.tail.as_slice().len() as u64;
    let bytes = total_size(decision.tail.as_slice());
    let is_within = (count <= MAX_TAIL_ENTRIES as u64) & (bytes <= MAX_TAIL_BYTES as u128);
    if is_within {
        PageOutcome::Complete(decision)
    } else {
        drop(decision);
        PageOutcome::TooMany { count, bytes }
    }
}
