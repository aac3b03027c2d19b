//! The position of an entry in the global order, and its encoding.

ghost use Rattle.std.specs.Prelude.{◌≡◌, ◌++◌, OnOk};
ghost use Rattle.std.specs.Option.{option_map};
ghost use Rattle.crsm_base.specs.Spelling.{option_bytes, FitsOption};
ghost use Rattle.crsm_state.specs.Histories.{FitsPosition, option_position_at, position_at, position_bytes};

use crsm_base::{Bytes, NoMemory, Stamp};
use crsm_text_fields::{put_stamp, put_u8, put_u64, take_stamp, take_u64};

/// The position of an entry in the global order.
#[derive(Clone, Copy)]
pub struct Position {
    pub epoch: u64,
    pub stamp: Stamp,
}

/// Appends the encoding of an optional position. `NoMemory` if memory runs out; a prefix may then have been appended.
#[tactic(auto, unfolding(crate::specs::Histories::position_bytes))]
pub(crate) fn put_option_position(
    position: &Option<Position>,
    out: &mut Bytes,
) -> Result<(), NoMemory>
    requires { FitsOption FitsPosition position.now }
    ensures { OnOk result (out.new ≡ out.old ++ option_bytes position_bytes position.now) }
{
    match position {
        None => put_u8(0, out),
        Some(position) => {
            put_u8(1, out)?;
            put_u64(position.epoch, out)?;
            put_stamp(position.stamp, out)
        }
    }
}

#[tactic(auto, unfolding(crate::specs::Histories::position_at))]
fn take_position(bytes: &[u8]) -> Option<(Position, &[u8])>
    ensures { option_map (λ x. (x.0, x.1.now)) result ≡ position_at bytes.now }
{
    let Some((epoch, rest)) = take_u64(bytes) else {
        return None;
    };
    let Some((stamp, rest)) = take_stamp(rest) else {
        return None;
    };
    Some((Position { epoch, stamp }, rest))
}

/// Parses an optional position at the beginning of `bytes`. Returns it and the remaining bytes, or `None` if they do not
/// begin with one.
#[tactic(auto, unfolding(crate::specs::Histories::option_position_at))]
pub(crate) fn take_option_position(bytes: &[u8]) -> Option<(Option<Position>, &[u8])>
    ensures { option_map (λ x. (x.0, x.1.now)) result ≡ option_position_at bytes.now }
{
    match bytes {
        [] => None,
        [0, rest @ ..] => Some((None, rest)),
        [1, rest @ ..] => {
            let (position, rest) = take_position(rest)?;
            Some((Some(position), rest))
        }
        [_, ..] => None,
    }
}
