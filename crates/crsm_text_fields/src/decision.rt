//! Encoding and parsing of decisions.

ghost use Rattle.std.specs.Prelude.{◌≡◌, ◌≤◌, ◌+◌, ◌==◌, ◌++◌, IfOk, OnOk, length};
ghost use Rattle.std.specs.Option.{option_map};
ghost use Rattle.crsm_base.specs.Spelling.{spec_bytes, decision_bytes, FitsDecision};
ghost use Rattle.crsm_base.specs.Reading.{spec_size_at, spec_at, spec_members_at, is_decision, tail_is_before, bare_decision_at, decision_at};

use crate::entries::{put_entries, take_entries};
use crate::members::{put_members, put_replicas, take_members, take_replicas};
use crate::number::{put_u8, put_u64, take_u8, take_u64};
use crsm_base::{Bytes, Decision, Entry, Members, NoMemory};
use std::alloc::Global;

// A named replica set begins with the byte 128 plus its size, which no member count equals.
const SPEC_MARK: u8 = 128;

#[tactic(auto, unfolding(crsm_base::specs::Spelling::spec_bytes))]
fn put_spec(spec: &Option<Members>, out: &mut Bytes) -> Result<(), NoMemory>
    ensures { OnOk result (out.new ≡ out.old ++ spec_bytes spec.now) }
{
    match spec {
        None => Ok(()),
        Some(replicas) => {
            put_u8(SPEC_MARK + replicas.count() as u8, out)?;
            put_replicas(replicas, out)
        }
    }
}

/// Appends the encoding of a decision. `NoMemory` if memory runs out; a prefix may then have been appended.
#[tactic(auto, unfolding(crsm_base::specs::Spelling::decision_bytes))]
pub fn put_decision(decision: &Decision, out: &mut Bytes) -> Result<(), NoMemory>
    requires { FitsDecision decision.now }
    ensures { OnOk result (out.new ≡ out.old ++ decision_bytes decision.now) }
{
    put_u64(decision.epoch, out)?;
    put_spec(&decision.spec, out)?;
    put_members(&decision.members, out)?;
    put_u64(decision.base_len, out)?;
    put_entries(&decision.tail, out)
}

fn is_just_before(entry: &Entry, epoch: u64) -> bool
    ensures { result ≡ (entry.now.epoch + 1 == epoch) }
{
    entry.epoch < epoch && epoch - entry.epoch == 1
}

fn tail_before(decision: &Decision) -> bool
    ensures { result ≡ tail_is_before decision.now }
{
    for entry in decision.tail.as_slice() {
        if !is_just_before(entry, decision.epoch) {
            return false;
        }
    }
    true
}

fn is_whole(decision: &Decision) -> bool
    ensures { result ≡ is_decision decision.now }
{
    let count = decision.tail.as_slice().len() as u64;
    decision.epoch >= 1 && decision.base_len <= u64::MAX - count && tail_before(decision)
}

#[tactic(auto, unfolding(crsm_base::specs::Reading::spec_size_at))]
fn take_spec_size(bytes: &[u8]) -> Option<(u8, &[u8])>
    ensures { option_map (λ x. (x.0, x.1.now)) result ≡ spec_size_at bytes.now }
{
    let (mark, rest) = take_u8(bytes)?;
    if mark >= SPEC_MARK {
        Some((mark - SPEC_MARK, rest))
    } else {
        None
    }
}

#[tactic(auto, unfolding(crsm_base::specs::Reading::spec_at))]
fn take_spec(alloc: Global, bytes: &[u8]) -> Result<Option<(Members, &[u8])>, NoMemory>
    ensures { IfOk result (λ r. option_map (λ x. (x.0, x.1.now)) r ≡ spec_at bytes.now) }
{
    let Some((size, rest)) = take_spec_size(bytes) else {
        return Ok(None);
    };
    take_replicas(alloc, size, rest)
}

// Parses the replica set, if the decision names one, and the members.
#[tactic(auto, unfolding(crsm_base::specs::Reading::spec_members_at))]
fn take_spec_members(
    alloc: Global,
    bytes: &[u8],
) -> Result<Option<((Option<Members>, Members), &[u8])>, NoMemory>
    ensures { IfOk result (λ r. option_map (λ x. (x.0, x.1.now)) r ≡ spec_members_at bytes.now) }
{
    let Some(first) = bytes.first() else {
        return Ok(None);
    };
    if *first < SPEC_MARK {
        let Ok(taken) = take_members(alloc, bytes) else {
            return Err(NoMemory);
        };
        let Some((members, rest)) = taken else {
            return Ok(None);
        };
        return Ok(Some(((None, members), rest)));
    }
    let Ok(taken) = take_spec(alloc, bytes) else {
        return Err(NoMemory);
    };
    let Some((spec, rest)) = taken else {
        return Ok(None);
    };
    let Ok(taken) = take_members(alloc, rest) else {
        drop(spec);
        return Err(NoMemory);
    };
    let Some((members, rest)) = taken else {
        drop(spec);
        return Ok(None);
    };
    Ok(Some(((Some(spec), members), rest)))
}

#[tactic(auto, unfolding(crsm_base::specs::Reading::bare_decision_at))]
fn take_bare_decision(alloc: Global, bytes: &[u8]) -> Result<Option<(Decision, &[u8])>, NoMemory>
    ensures { IfOk result (λ r. option_map (λ x. (x.0, x.1.now)) r ≡ bare_decision_at bytes.now) }
{
    let Some((epoch, rest)) = take_u64(bytes) else {
        return Ok(None);
    };
    let Ok(taken) = take_spec_members(alloc, rest) else {
        return Err(NoMemory);
    };
    let Some((sets, rest)) = taken else {
        return Ok(None);
    };
    let Some((base_len, rest)) = take_u64(rest) else {
        drop(sets);
        return Ok(None);
    };
    let Ok(taken) = take_entries(alloc, rest) else {
        drop(sets);
        return Err(NoMemory);
    };
    let Some((tail, rest)) = taken else {
        drop(sets);
        return Ok(None);
    };
    let (spec, members) = sets;
    let decision = Decision {
        epoch,
        spec,
        members,
        base_len,
        tail,
    };
    Ok(Some((decision, rest)))
}

/// Parses a decision at the beginning of `bytes`. Returns it and the remaining bytes, or `None` if they do not begin
/// with one; `NoMemory` if memory runs out.
#[tactic(auto, unfolding(crsm_base::specs::Reading::decision_at))]
pub fn take_decision(alloc: Global, bytes: &[u8]) -> Result<Option<(Decision, &[u8])>, NoMemory>
    ensures { IfOk result (λ r. option_map (λ x. (x.0, x.1.now)) r ≡ decision_at bytes.now) }
{
    let Ok(taken) = take_bare_decision(alloc, bytes) else {
        return Err(NoMemory);
    };
    let Some((decision, rest)) = taken else {
        return Ok(None);
    };
    if !is_whole(&decision) {
        drop(decision);
        return Ok(None);
    }
    Ok(Some((decision, rest)))
}
