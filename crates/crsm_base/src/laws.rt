//! The constants of `limits` are the numbers of the definitions in `specs/Limits`.

ghost use Rattle.std.specs.Prelude.{◌≡◌};
ghost use Rattle.crsm_base.specs.Limits.{idle_after, most_again, most_bytes, most_clients, most_control_bytes, most_entries, most_frames, most_key_bytes, most_keys, most_log_bytes, most_own, most_parts, most_val_bytes, most_world, page_bytes, part_bytes};

use crate::limits::{
    IDLE_UNITS, MAX_CLIENTS, MAX_CONTROL_BYTES, MAX_KEY_BYTES, MAX_KEYS, MAX_LINK_FRAMES,
    MAX_LOG_BYTES, MAX_OWN_UNEXECUTED, MAX_PAGE_BYTES, MAX_PARTS, MAX_SENT_AGAIN, MAX_TAIL_BYTES,
    MAX_TAIL_ENTRIES, MAX_VAL_BYTES, MAX_WORLD_BYTES, PART_BYTES,
};

/// States that each constant of `limits` is the number of that limit in `specs/Limits`. It runs no code.
pub fn limits_are_those()
    ensures key_bytes { MAX_KEY_BYTES ≡ most_key_bytes }
    ensures val_bytes { MAX_VAL_BYTES ≡ most_val_bytes }
    ensures keys { MAX_KEYS ≡ most_keys }
    ensures clients { MAX_CLIENTS ≡ most_clients }
    ensures control_bytes { MAX_CONTROL_BYTES ≡ most_control_bytes }
    ensures part_bytes { PART_BYTES ≡ part_bytes }
    ensures parts { MAX_PARTS ≡ most_parts }
    ensures tail_entries { MAX_TAIL_ENTRIES ≡ most_entries }
    ensures tail_bytes { MAX_TAIL_BYTES ≡ most_bytes }
    ensures page_bytes { MAX_PAGE_BYTES ≡ page_bytes }
    ensures own { MAX_OWN_UNEXECUTED ≡ most_own }
    ensures frames { MAX_LINK_FRAMES ≡ most_frames }
    ensures again { MAX_SENT_AGAIN ≡ most_again }
    ensures idle { IDLE_UNITS ≡ idle_after }
    ensures log_bytes { MAX_LOG_BYTES ≡ most_log_bytes }
    ensures world { MAX_WORLD_BYTES ≡ most_world }
{}
