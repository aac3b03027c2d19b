//! Encoding and parsing of an acceptor's accepted ballot and decision.

ghost use Rattle.std.specs.Prelude.{◌≡◌, ◌++◌, IfOk, OnOk};
ghost use Rattle.std.specs.Option.{option_map};
ghost use Rattle.crsm_base.specs.Spelling.{option_bytes, FitsOption};
ghost use Rattle.crsm_base.specs.Messages.{vote_bytes, FitsVote};
ghost use Rattle.crsm_base.specs.MessageReading.{vote_at, option_vote_at};

use crate::decision::{put_decision, take_decision};
use crate::number::put_u8;
use crate::stamp::{put_ballot, take_ballot};
use crsm_base::{Ballot, Bytes, Decision, NoMemory};
use std::alloc::Global;

/// Appends the encoding of an optional accepted ballot and decision. `NoMemory` if memory runs out; a prefix may then
/// have been appended.
pub fn put_option_vote(vote: &Option<(Ballot, Decision)>, out: &mut Bytes) -> Result<(), NoMemory>
    requires { FitsOption FitsVote vote.now }
    ensures { OnOk result (out.new ≡ out.old ++ option_bytes vote_bytes vote.now) }
{
    match vote {
        None => put_u8(0, out),
        Some((ballot, decision)) => {
            put_u8(1, out)?;
            put_ballot(*ballot, out)?;
            put_decision(decision, out)
        }
    }
}

#[tactic(auto, unfolding(crsm_base::specs::MessageReading::vote_at))]
fn take_vote(alloc: Global, bytes: &[u8]) -> Result<Option<((Ballot, Decision), &[u8])>, NoMemory>
    ensures { IfOk result (λ r. option_map (λ x. (x.0, x.1.now)) r ≡ vote_at bytes.now) }
{
    let Some((ballot, rest)) = take_ballot(bytes) else {
        return Ok(None);
    };
    match take_decision(alloc, rest) {
        Ok(Some((decision, rest))) => Ok(Some(((ballot, decision), rest))),
        Ok(None) => Ok(None),
        Err(NoMemory) => Err(NoMemory),
    }
}

/// Parses an optional accepted ballot and decision at the beginning of `bytes`. Returns it and the remaining bytes, or
/// `None` if they do not begin with one; `NoMemory` if memory runs out.
#[tactic(auto, unfolding(crsm_base::specs::MessageReading::option_vote_at))]
pub fn take_option_vote(
    alloc: Global,
    bytes: &[u8],
) -> Result<Option<(Option<(Ballot, Decision)>, &[u8])>, NoMemory>
    ensures { IfOk result (λ r. option_map (λ x. (x.0, x.1.now)) r ≡ option_vote_at bytes.now) }
{
    match bytes {
        [] => Ok(None),
        [0, rest @ ..] => Ok(Some((None, rest))),
        [1, rest @ ..] => {
            match take_vote(alloc, rest) {
                Ok(Some((vote, rest))) => Ok(Some((Some(vote), rest))),
                Ok(None) => Ok(None),
                Err(NoMemory) => Err(NoMemory),
            }
        }
        [_, ..] => Ok(None),
    }
}
