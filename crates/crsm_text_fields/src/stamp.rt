//! Encoding and parsing of stamps and ballots.

ghost use Rattle.std.specs.Prelude.{◌≡◌, ◌++◌, OnOk};
ghost use Rattle.std.specs.Option.{option_map};
ghost use Rattle.crsm_base.specs.Spelling.{option_bytes, FitsOption, stamp_bytes, FitsStamp, ballot_bytes, FitsBallot};
ghost use Rattle.crsm_base.specs.Reading.{stamp_at, ballot_at};
ghost use Rattle.crsm_base.specs.MessageReading.{option_stamp_at};

use crate::cells::number_and_byte;
use crate::number::{put_u8, take_replica, take_u64};
use crsm_base::{Ballot, Bytes, NoMemory, Stamp};

/// Appends the encoding of a stamp. `NoMemory` if memory runs out; a prefix may then have been appended.
#[tactic(auto, unfolding(crsm_base::specs::Spelling::stamp_bytes))]
pub fn put_stamp(stamp: Stamp, out: &mut Bytes) -> Result<(), NoMemory>
    requires { FitsStamp stamp }
    ensures { OnOk result (out.new ≡ out.old ++ stamp_bytes stamp) }
{
    out.append(&number_and_byte(stamp.time, stamp.origin as u8))
}

/// Appends the encoding of an optional stamp. `NoMemory` if memory runs out; a prefix may then have been appended.
pub fn put_option_stamp(stamp: Option<Stamp>, out: &mut Bytes) -> Result<(), NoMemory>
    requires { FitsOption FitsStamp stamp }
    ensures { OnOk result (out.new ≡ out.old ++ option_bytes stamp_bytes stamp) }
{
    match stamp {
        None => put_u8(0, out),
        Some(stamp) => {
            put_u8(1, out)?;
            put_stamp(stamp, out)
        }
    }
}

/// Appends the encoding of a ballot. `NoMemory` if memory runs out; a prefix may then have been appended.
#[tactic(auto, unfolding(crsm_base::specs::Spelling::ballot_bytes))]
pub fn put_ballot(ballot: Ballot, out: &mut Bytes) -> Result<(), NoMemory>
    requires { FitsBallot ballot }
    ensures { OnOk result (out.new ≡ out.old ++ ballot_bytes ballot) }
{
    out.append(&number_and_byte(ballot.round, ballot.by as u8))
}

/// Parses a stamp at the beginning of `bytes`. Returns it and the remaining bytes, or `None` if they do not begin with
/// one.
#[tactic(auto, unfolding(crsm_base::specs::Reading::stamp_at))]
pub fn take_stamp(bytes: &[u8]) -> Option<(Stamp, &[u8])>
    ensures { option_map (λ x. (x.0, x.1.now)) result ≡ stamp_at bytes.now }
{
    let Some((time, rest)) = take_u64(bytes) else {
        return None;
    };
    let Some((origin, rest)) = take_replica(rest) else {
        return None;
    };
    Some((Stamp { time, origin }, rest))
}

/// Parses an optional stamp at the beginning of `bytes`. Returns it and the remaining bytes, or `None` if they do
/// not begin with one.
#[tactic(auto, unfolding(crsm_base::specs::MessageReading::option_stamp_at))]
pub fn take_option_stamp(bytes: &[u8]) -> Option<(Option<Stamp>, &[u8])>
    ensures { option_map (λ x. (x.0, x.1.now)) result ≡ option_stamp_at bytes.now }
{
    match bytes {
        [] => None,
        [0, rest @ ..] => Some((None, rest)),
        [1, rest @ ..] => {
            let (stamp, rest) = take_stamp(rest)?;
            Some((Some(stamp), rest))
        }
        [_, ..] => None,
    }
}

/// Parses a ballot at the beginning of `bytes`. Returns it and the remaining bytes, or `None` if they do not begin with
/// one.
#[tactic(auto, unfolding(crsm_base::specs::Reading::ballot_at))]
pub fn take_ballot(bytes: &[u8]) -> Option<(Ballot, &[u8])>
    ensures { option_map (λ x. (x.0, x.1.now)) result ≡ ballot_at bytes.now }
{
    let Some((round, rest)) = take_u64(bytes) else {
        return None;
    };
    let Some((by, rest)) = take_replica(rest) else {
        return None;
    };
    Some((Ballot { round, by }, rest))
}
