//! Records, written to bytes and read back.

ghost use Rattle.std.specs.Prelude.{◌≡◌, ◌∷◌, ◌++◌, [], IfOk, OnOk};
ghost use Rattle.std.specs.Option.{option_map};
ghost use Rattle.crsm_base.specs.Spelling.{FitsBallot, ballot_bytes, u64_bytes};
ghost use Rattle.crsm_mpspec.specs.Records.{rec_bytes, FitsRec};
ghost use Rattle.crsm_mpspec.specs.declared.rec.MpRec.{MpRec as Record};
ghost use Rattle.crsm_mpledger.specs.Reading.{promise_at, accept_at, choose_at, rec_at};

use crate::value::take_value;
use crsm_base::{Ballot, Bytes, NoMemory};
use crsm_mpspec::{MpRec, SharedValue};
use crsm_text_fields::{put_ballot, put_u8, take_ballot, take_u8, take_u64};
use std::alloc::Global;

/// Encodes the kind of a record and its slot.
#[tactic(auto, unfolding(crsm_base::specs::Spelling::u64_bytes))]
fn slot_head(kind: u8, slot: u64) -> [u8; 9]
    ensures { result ≡ kind ∷ u64_bytes slot }
{
    let mut cells = [kind; 9];
    cells[1..9].copy_from_slice(&slot.to_be_bytes());
    cells
}

/// Encodes the kind of a record, its slot and its ballot.
#[tactic(auto, unfolding(crsm_base::specs::Spelling::u64_bytes, crsm_base::specs::Spelling::ballot_bytes))]
fn ballot_head(kind: u8, slot: u64, ballot: Ballot) -> [u8; 18]
    requires { FitsBallot ballot }
    ensures { result ≡ kind ∷ (u64_bytes slot ++ ballot_bytes ballot) }
{
    let mut cells = [kind; 18];
    cells[1..9].copy_from_slice(&slot.to_be_bytes());
    cells[9..17].copy_from_slice(&ballot.round.to_be_bytes());
    cells[17] = ballot.by as u8;
    cells
}

// The fields before a value have a fixed length, so that they are appended by a single call.
#[tactic(auto, unfolding(crsm_mpspec::specs::Records::rec_bytes))]
fn put_accept(
    slot: u64,
    ballot: Ballot,
    value: &SharedValue,
    out: &mut Bytes,
) -> Result<(), NoMemory>
    requires { FitsBallot ballot }
    ensures { OnOk result (out.new ≡ out.old ++ rec_bytes (Record.Accept slot ballot value.now)) }
{
    out.append(&ballot_head(3, slot, ballot))?;
    out.append(value.as_bytes())
}

#[tactic(auto, unfolding(crsm_mpspec::specs::Records::rec_bytes))]
fn put_choose(slot: u64, value: &SharedValue, out: &mut Bytes) -> Result<(), NoMemory>
    ensures { OnOk result (out.new ≡ out.old ++ rec_bytes (Record.Choose slot value.now)) }
{
    out.append(&slot_head(4, slot))?;
    out.append(value.as_bytes())
}

/// Appends the encoding of a record. `NoMemory` if memory runs out.
#[tactic(auto, unfolding(crsm_mpspec::specs::Records::rec_bytes))]
pub fn put_rec(rec: &MpRec, out: &mut Bytes) -> Result<(), NoMemory>
    requires { FitsRec rec.now }
    ensures { OnOk result (out.new ≡ out.old ++ rec_bytes rec.now) }
{
    match rec {
        MpRec::Boot => put_u8(1, out),
        MpRec::Promise { ballot } => {
            put_u8(2, out)?;
            put_ballot(*ballot, out)
        }
        MpRec::Accept {
            slot,
            ballot,
            value,
        } => put_accept(*slot, *ballot, value, out),
        MpRec::Choose { slot, value } => put_choose(*slot, value, out),
    }
}

#[tactic(auto, unfolding(crate::specs::Reading::promise_at))]
fn take_promise(bytes: &[u8]) -> Option<(MpRec, &[u8])>
    ensures { option_map (λ x. (x.0, x.1.now)) result ≡ promise_at bytes.now }
{
    let (ballot, rest) = take_ballot(bytes)?;
    Some((MpRec::Promise { ballot }, rest))
}

#[tactic(auto, unfolding(crate::specs::Reading::accept_at))]
fn take_accept(alloc: Global, bytes: &[u8]) -> Result<Option<(MpRec, &[u8])>, NoMemory>
    ensures { IfOk result (λ r. option_map (λ x. (x.0, x.1.now)) r ≡ accept_at bytes.now) }
{
    let Some((slot, rest)) = take_u64(bytes) else {
        return Ok(None);
    };
    let Some((ballot, rest)) = take_ballot(rest) else {
        return Ok(None);
    };
    let Some((value, rest)) = take_value(alloc, rest)? else {
        return Ok(None);
    };
    Ok(Some((
        MpRec::Accept {
            slot,
            ballot,
            value,
        },
        rest,
    )))
}

#[tactic(auto, unfolding(crate::specs::Reading::choose_at))]
fn take_choose(alloc: Global, bytes: &[u8]) -> Result<Option<(MpRec, &[u8])>, NoMemory>
    ensures { IfOk result (λ r. option_map (λ x. (x.0, x.1.now)) r ≡ choose_at bytes.now) }
{
    let Some((slot, rest)) = take_u64(bytes) else {
        return Ok(None);
    };
    let Some((value, rest)) = take_value(alloc, rest)? else {
        return Ok(None);
    };
    Ok(Some((MpRec::Choose { slot, value }, rest)))
}

/// Parses a record from the prefix of the bytes, and returns it with the bytes after it. `None` if no record begins
/// there; `NoMemory` if memory runs out.
#[tactic(auto, unfolding(crate::specs::Reading::rec_at, crate::specs::Reading::boot_at))]
pub fn take_rec(alloc: Global, bytes: &[u8]) -> Result<Option<(MpRec, &[u8])>, NoMemory>
    ensures { IfOk result (λ r. option_map (λ x. (x.0, x.1.now)) r ≡ rec_at bytes.now) }
{
    let Some((kind, rest)) = take_u8(bytes) else {
        return Ok(None);
    };
    match kind {
        1 => Ok(Some((MpRec::Boot, rest))),
        2 => Ok(take_promise(rest)),
        3 => take_accept(alloc, rest),
        4 => take_choose(alloc, rest),
        _ => Ok(None),
    }
}
