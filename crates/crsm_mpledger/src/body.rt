//! Whole log bodies: one or more records.

ghost use Rattle.std.specs.Prelude.{◌≡◌, ◌++◌, List, Some, IfOk, IfSome, IfNone, OnOk};
ghost use Rattle.std.specs.List.{AllByRecursion};
ghost use Rattle.crsm_mpspec.specs.declared.rec.MpRec.{MpRec};
ghost use Rattle.crsm_mpspec.specs.Records.{FitsRec, SpeltBody, body_bytes};

use crate::rec::{put_rec, take_rec};
use crsm_base::{Bytes, NoMemory};
use crsm_mpspec::{MpRec, MpRecs};
use std::alloc::Global;

#[tactic(auto, unfolding(crsm_mpspec::specs::Records::body_bytes))]
/// Appends the encodings of records. `NoMemory` if memory runs out.
pub fn put_body(records: &[MpRec], out: &mut Bytes) -> Result<(), NoMemory>
    requires { AllByRecursion FitsRec records.now }
    ensures { OnOk result (out.new ≡ out.old ++ body_bytes records.now) }
{
    for rec in records {
        put_rec(rec, out)?;
    }
    Ok(())
}

/// Parses the records of a whole log body. `None` if the bytes are not one or more records; `NoMemory` if memory runs
/// out.
pub fn take_body(alloc: Global, body: &[u8]) -> Result<Option<MpRecs>, NoMemory>
    ensures found { IfOk result (λ r. IfSome r (λ recs. SpeltBody recs body.now)) }
    ensures none { IfOk result (λ r. IfNone r ((recs : List MpRec) → SpeltBody recs body.now → ⊥)) }
    ensures again { (recs : List MpRec) → SpeltBody recs body.now → IfOk result (λ r. r ≡ Some recs) }
{
    if body.is_empty() {
        return Ok(None);
    }
    let mut records = MpRecs::new(alloc);
    let mut rest = body;
    while !rest.is_empty() {
        let Some((rec, after)) = take_rec(alloc, rest)? else {
            return Ok(None);
        };
        records.push(rec)?;
        rest = after;
    }
    Ok(Some(records))
}
