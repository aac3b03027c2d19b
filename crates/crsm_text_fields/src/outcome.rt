//! Encoding and parsing of answers and outcomes.

ghost use Rattle.std.specs.Prelude.{◌≡◌, ◌++◌, IfOk, OnOk};
ghost use Rattle.std.specs.Option.{option_map};
ghost use Rattle.crsm_base.specs.Spelling.{answer_bytes, FitsAnswer, outcome_bytes, FitsOutcome};
ghost use Rattle.crsm_base.specs.Reading.{found_at, differs_at, stale_at, answer_at, answered_at, outcome_at};

use crate::number::{put_u8, put_u64, take_u8, take_u64};
use crate::value::{put_option_val, put_val, take_option_val, take_val};
use crsm_base::{Answer, Bytes, NoMemory, Outcome, Refusal};
use std::alloc::Global;

/// Appends the encoding of an answer. `NoMemory` if memory runs out; a prefix may then have been appended.
#[tactic(auto, unfolding(crsm_base::specs::Spelling::answer_bytes))]
pub fn put_answer(answer: &Answer, out: &mut Bytes) -> Result<(), NoMemory>
    requires { FitsAnswer answer.now }
    ensures { OnOk result (out.new ≡ out.old ++ answer_bytes answer.now) }
{
    match answer {
        Answer::Found(val) => {
            put_u8(1, out)?;
            put_val(val, out)
        }
        Answer::Missing => put_u8(2, out),
        Answer::Done => put_u8(3, out),
        Answer::Differs(val) => {
            put_u8(4, out)?;
            put_option_val(val, out)
        }
        Answer::Stale(number) => {
            put_u8(5, out)?;
            put_u64(*number, out)
        }
        Answer::NoRoom => put_u8(6, out),
    }
}

/// Appends the encoding of an outcome. `NoMemory` if memory runs out; a prefix may then have been appended.
#[tactic(auto, unfolding(crsm_base::specs::Spelling::outcome_bytes))]
pub fn put_outcome(outcome: &Outcome, out: &mut Bytes) -> Result<(), NoMemory>
    requires { FitsOutcome outcome.now }
    ensures { OnOk result (out.new ≡ out.old ++ outcome_bytes outcome.now) }
{
    match outcome {
        Outcome::Answered(answer) => {
            put_u8(0, out)?;
            put_answer(answer, out)
        }
        Outcome::Refused(Refusal::NotLive) => put_u8(1, out),
        Outcome::Refused(Refusal::Suspended) => put_u8(2, out),
        Outcome::Refused(Refusal::Busy) => put_u8(3, out),
        Outcome::Refused(Refusal::Congested) => put_u8(4, out),
        Outcome::Refused(Refusal::ClockSpent) => put_u8(5, out),
        Outcome::Refused(Refusal::Dropped) => put_u8(6, out),
    }
}

#[tactic(auto, unfolding(crsm_base::specs::Reading::found_at))]
fn take_found(alloc: Global, bytes: &[u8]) -> Result<Option<(Answer, &[u8])>, NoMemory>
    ensures { IfOk result (λ r. option_map (λ x. (x.0, x.1.now)) r ≡ found_at bytes.now) }
{
    match take_val(alloc, bytes) {
        Ok(Some((val, rest))) => Ok(Some((Answer::Found(val), rest))),
        Ok(None) => Ok(None),
        Err(NoMemory) => Err(NoMemory),
    }
}

#[tactic(auto, unfolding(crsm_base::specs::Reading::differs_at))]
fn take_differs(alloc: Global, bytes: &[u8]) -> Result<Option<(Answer, &[u8])>, NoMemory>
    ensures { IfOk result (λ r. option_map (λ x. (x.0, x.1.now)) r ≡ differs_at bytes.now) }
{
    match take_option_val(alloc, bytes) {
        Ok(Some((val, rest))) => Ok(Some((Answer::Differs(val), rest))),
        Ok(None) => Ok(None),
        Err(NoMemory) => Err(NoMemory),
    }
}

#[tactic(auto, unfolding(crsm_base::specs::Reading::stale_at))]
fn take_stale(_alloc: Global, bytes: &[u8]) -> Result<Option<(Answer, &[u8])>, NoMemory>
    ensures { IfOk result (λ r. option_map (λ x. (x.0, x.1.now)) r ≡ stale_at bytes.now) }
{
    let Some((number, rest)) = take_u64(bytes) else {
        return Ok(None);
    };
    Ok(Some((Answer::Stale(number), rest)))
}

/// Parses an answer at the beginning of `bytes`. Returns it and the remaining bytes, or `None` if they do not begin
/// with one; `NoMemory` if memory runs out.
#[tactic(auto, unfolding(crsm_base::specs::Reading::answer_at))]
pub fn take_answer(alloc: Global, bytes: &[u8]) -> Result<Option<(Answer, &[u8])>, NoMemory>
    ensures { IfOk result (λ r. option_map (λ x. (x.0, x.1.now)) r ≡ answer_at bytes.now) }
{
    let Some((tag, rest)) = take_u8(bytes) else {
        return Ok(None);
    };
    match tag {
        1 => take_found(alloc, rest),
        2 => Ok(Some((Answer::Missing, rest))),
        3 => Ok(Some((Answer::Done, rest))),
        4 => take_differs(alloc, rest),
        5 => take_stale(alloc, rest),
        6 => Ok(Some((Answer::NoRoom, rest))),
        _ => Ok(None),
    }
}

#[tactic(auto, unfolding(crsm_base::specs::Reading::answered_at))]
fn take_answered(alloc: Global, bytes: &[u8]) -> Result<Option<(Outcome, &[u8])>, NoMemory>
    ensures { IfOk result (λ r. option_map (λ x. (x.0, x.1.now)) r ≡ answered_at bytes.now) }
{
    match take_answer(alloc, bytes) {
        Ok(Some((answer, rest))) => Ok(Some((Outcome::Answered(answer), rest))),
        Ok(None) => Ok(None),
        Err(NoMemory) => Err(NoMemory),
    }
}

/// Parses an outcome at the beginning of `bytes`. Returns it and the remaining bytes, or `None` if they do not begin
/// with one; `NoMemory` if memory runs out.
#[tactic(auto, unfolding(crsm_base::specs::Reading::outcome_at))]
pub fn take_outcome(alloc: Global, bytes: &[u8]) -> Result<Option<(Outcome, &[u8])>, NoMemory>
    ensures { IfOk result (λ r. option_map (λ x. (x.0, x.1.now)) r ≡ outcome_at bytes.now) }
{
    let Some((tag, rest)) = take_u8(bytes) else {
        return Ok(None);
    };
    match tag {
        0 => take_answered(alloc, rest),
        1 => Ok(Some((Outcome::Refused(Refusal::NotLive), rest))),
        2 => Ok(Some((Outcome::Refused(Refusal::Suspended), rest))),
        3 => Ok(Some((Outcome::Refused(Refusal::Busy), rest))),
        4 => Ok(Some((Outcome::Refused(Refusal::Congested), rest))),
        5 => Ok(Some((Outcome::Refused(Refusal::ClockSpent), rest))),
        6 => Ok(Some((Outcome::Refused(Refusal::Dropped), rest))),
        _ => Ok(None),
    }
}
