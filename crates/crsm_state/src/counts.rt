//! Counts of items before lists.

ghost use Rattle.std.specs.Prelude.{◌≡◌, true};
ghost use Rattle.crsm_state.specs.Faults.{CountsMore};

use crsm_text_fields::take_u32;

/// Returns whether the bytes begin with a count of more than `limit`.
pub(crate) fn counts_more(bytes: &[u8], limit: u32) -> bool
    ensures { result ≡ true → CountsMore limit bytes.now }
{
    match take_u32(bytes) {
        Some((count, _)) => count > limit,
        None => false,
    }
}
