//! Encoding and parsing of log records.

ghost use Rattle.std.specs.Prelude.{◌≡◌, ◌∷◌, ◌++◌, IfOk, OnOk};
ghost use Rattle.std.specs.Option.{option_map};
ghost use Rattle.crsm_base.specs.Records.{rec_bytes, FitsRec};
ghost use Rattle.crsm_base.specs.Spelling.{ballot_bytes, FitsBallot, u64_bytes};
ghost use Rattle.crsm_base.specs.RecordReading.{boot_at, prepare_rec_at, commit_at, adopt_at, suspend_rec_at, promise_at, accept_at, decide_rec_at, enter_at, rec_at};

use crate::command::{put_entry, take_entry};
use crate::decision::{put_decision, take_decision};
use crate::entries::{put_entries, take_entries};
use crate::number::{put_u8, put_u64, take_replica, take_u8, take_u64};
use crate::stamp::{put_ballot, put_stamp, take_ballot, take_stamp};
use crsm_base::{Ballot, Bytes, NoMemory, Rec};
use std::alloc::Global;

/// Appends the encoding of a record. `NoMemory` if memory runs out; a prefix may then have been appended.
#[tactic(auto, unfolding(crsm_base::specs::Records::rec_bytes))]
pub fn put_rec(rec: &Rec, out: &mut Bytes) -> Result<(), NoMemory>
    requires { FitsRec rec.now }
    ensures { OnOk result (out.new ≡ out.old ++ rec_bytes rec.now) }
{
    match rec {
        Rec::Boot { me, n } => out.append(&[1, *me as u8, *n as u8]),
        Rec::Prepare { entry } => {
            put_u8(2, out)?;
            put_entry(entry, out)
        }
        Rec::Commit { stamp } => {
            put_u8(3, out)?;
            put_stamp(*stamp, out)
        }
        Rec::Adopt { place, entries } => {
            put_tagged_u64(4, *place, out)?;
            put_entries(entries, out)
        }
        Rec::Suspend { epoch } => put_tagged_u64(5, *epoch, out),
        Rec::Promise { instance, ballot } => put_ballot_for(6, *instance, *ballot, out),
        Rec::Accept {
            instance,
            ballot,
            decision,
        } => {
            put_ballot_for(7, *instance, *ballot, out)?;
            put_decision(decision, out)
        }
        Rec::Decide { decision } => {
            put_u8(8, out)?;
            put_decision(decision, out)
        }
        Rec::Enter { epoch } => put_tagged_u64(9, *epoch, out),
    }
}

/// Appends a tag byte and the encoding of a number. `NoMemory` if memory runs out; a prefix may then have been appended.
fn put_tagged_u64(tag: u8, number: u64, out: &mut Bytes) -> Result<(), NoMemory>
    ensures { OnOk result (out.new ≡ out.old ++ tag ∷ u64_bytes number) }
{
    put_u8(tag, out)?;
    put_u64(number, out)
}

/// Appends a tag byte, the number of an instance and a ballot of it. `NoMemory` if memory runs out; a prefix may then
/// have been appended.
fn put_ballot_for(tag: u8, instance: u64, ballot: Ballot, out: &mut Bytes) -> Result<(), NoMemory>
    requires { FitsBallot ballot }
    ensures { OnOk result (out.new ≡ out.old ++ tag ∷ (u64_bytes instance ++ ballot_bytes ballot)) }
{
    put_tagged_u64(tag, instance, out)?;
    put_ballot(ballot, out)
}

#[tactic(auto, unfolding(crsm_base::specs::RecordReading::boot_at))]
fn take_boot(_alloc: Global, bytes: &[u8]) -> Result<Option<(Rec, &[u8])>, NoMemory>
    ensures { IfOk result (λ r. option_map (λ x. (x.0, x.1.now)) r ≡ boot_at bytes.now) }
{
    let Some((me, rest)) = take_replica(bytes) else {
        return Ok(None);
    };
    let Some((n, rest)) = take_u8(rest) else {
        return Ok(None);
    };
    Ok(Some((
        Rec::Boot {
            me,
            n: u32::from(n),
        },
        rest,
    )))
}

#[tactic(auto, unfolding(crsm_base::specs::RecordReading::prepare_rec_at))]
fn take_prepare(alloc: Global, bytes: &[u8]) -> Result<Option<(Rec, &[u8])>, NoMemory>
    ensures { IfOk result (λ r. option_map (λ x. (x.0, x.1.now)) r ≡ prepare_rec_at bytes.now) }
{
    match take_entry(alloc, bytes) {
        Ok(Some((entry, rest))) => Ok(Some((Rec::Prepare { entry }, rest))),
        Ok(None) => Ok(None),
        Err(NoMemory) => Err(NoMemory),
    }
}

#[tactic(auto, unfolding(crsm_base::specs::RecordReading::commit_at))]
fn take_commit(_alloc: Global, bytes: &[u8]) -> Result<Option<(Rec, &[u8])>, NoMemory>
    ensures { IfOk result (λ r. option_map (λ x. (x.0, x.1.now)) r ≡ commit_at bytes.now) }
{
    let Some((stamp, rest)) = take_stamp(bytes) else {
        return Ok(None);
    };
    Ok(Some((Rec::Commit { stamp }, rest)))
}

#[tactic(auto, unfolding(crsm_base::specs::RecordReading::adopt_at))]
fn take_adopt(alloc: Global, bytes: &[u8]) -> Result<Option<(Rec, &[u8])>, NoMemory>
    ensures { IfOk result (λ r. option_map (λ x. (x.0, x.1.now)) r ≡ adopt_at bytes.now) }
{
    let Some((place, rest)) = take_u64(bytes) else {
        return Ok(None);
    };
    match take_entries(alloc, rest) {
        Ok(Some((entries, rest))) => Ok(Some((Rec::Adopt { place, entries }, rest))),
        Ok(None) => Ok(None),
        Err(NoMemory) => Err(NoMemory),
    }
}

#[tactic(auto, unfolding(crsm_base::specs::RecordReading::suspend_rec_at))]
fn take_suspend(_alloc: Global, bytes: &[u8]) -> Result<Option<(Rec, &[u8])>, NoMemory>
    ensures { IfOk result (λ r. option_map (λ x. (x.0, x.1.now)) r ≡ suspend_rec_at bytes.now) }
{
    let Some((epoch, rest)) = take_u64(bytes) else {
        return Ok(None);
    };
    Ok(Some((Rec::Suspend { epoch }, rest)))
}

#[tactic(auto, unfolding(crsm_base::specs::RecordReading::promise_at))]
fn take_promise(_alloc: Global, bytes: &[u8]) -> Result<Option<(Rec, &[u8])>, NoMemory>
    ensures { IfOk result (λ r. option_map (λ x. (x.0, x.1.now)) r ≡ promise_at bytes.now) }
{
    let Some((instance, rest)) = take_u64(bytes) else {
        return Ok(None);
    };
    let Some((ballot, rest)) = take_ballot(rest) else {
        return Ok(None);
    };
    Ok(Some((Rec::Promise { instance, ballot }, rest)))
}

#[tactic(auto, unfolding(crsm_base::specs::RecordReading::accept_at))]
fn take_accept(alloc: Global, bytes: &[u8]) -> Result<Option<(Rec, &[u8])>, NoMemory>
    ensures { IfOk result (λ r. option_map (λ x. (x.0, x.1.now)) r ≡ accept_at bytes.now) }
{
    let Some((instance, rest)) = take_u64(bytes) else {
        return Ok(None);
    };
    let Some((ballot, rest)) = take_ballot(rest) else {
        return Ok(None);
    };
    match take_decision(alloc, rest) {
        Ok(Some((decision, rest))) => Ok(Some((
            Rec::Accept {
                instance,
                ballot,
                decision,
            },
            rest,
        ))),
        Ok(None) => Ok(None),
        Err(NoMemory) => Err(NoMemory),
    }
}

#[tactic(auto, unfolding(crsm_base::specs::RecordReading::decide_rec_at))]
fn take_decide(alloc: Global, bytes: &[u8]) -> Result<Option<(Rec, &[u8])>, NoMemory>
    ensures { IfOk result (λ r. option_map (λ x. (x.0, x.1.now)) r ≡ decide_rec_at bytes.now) }
{
    match take_decision(alloc, bytes) {
        Ok(Some((decision, rest))) => Ok(Some((Rec::Decide { decision }, rest))),
        Ok(None) => Ok(None),
        Err(NoMemory) => Err(NoMemory),
    }
}

#[tactic(auto, unfolding(crsm_base::specs::RecordReading::enter_at))]
fn take_enter(_alloc: Global, bytes: &[u8]) -> Result<Option<(Rec, &[u8])>, NoMemory>
    ensures { IfOk result (λ r. option_map (λ x. (x.0, x.1.now)) r ≡ enter_at bytes.now) }
{
    let Some((epoch, rest)) = take_u64(bytes) else {
        return Ok(None);
    };
    Ok(Some((Rec::Enter { epoch }, rest)))
}

/// Parses a record at the beginning of `bytes`. Returns it and the remaining bytes, or `None` if they do not begin with
/// one; `NoMemory` if memory runs out.
#[tactic(auto, unfolding(crsm_base::specs::RecordReading::rec_at))]
pub fn take_rec(alloc: Global, bytes: &[u8]) -> Result<Option<(Rec, &[u8])>, NoMemory>
    ensures { IfOk result (λ r. option_map (λ x. (x.0, x.1.now)) r ≡ rec_at bytes.now) }
{
    let Some((tag, rest)) = take_u8(bytes) else {
        return Ok(None);
    };
    match tag {
        1 => take_boot(alloc, rest),
        2 => take_prepare(alloc, rest),
        3 => take_commit(alloc, rest),
        4 => take_adopt(alloc, rest),
        5 => take_suspend(alloc, rest),
        6 => take_promise(alloc, rest),
        7 => take_accept(alloc, rest),
        8 => take_decide(alloc, rest),
        9 => take_enter(alloc, rest),
        _ => Ok(None),
    }
}
