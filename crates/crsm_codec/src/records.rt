//! Readers and writers of records and whole log bodies.

ghost use Rattle.std.specs.Prelude.{◌≡◌, ◌++◌, List, IfOk, IfSome, IfNone, OnOk, OnErr};
ghost use Rattle.crsm_base.specs.declared.Rec.{Rec};
ghost use Rattle.crsm_base.specs.Records.{FitsRec, SpeltRec, rec_bytes, SpeltBody};
ghost use Rattle.crsm_codec.specs.Readers.{IsPrefix, HasNoPrefix, ReadsAgain};

use crsm_base::{Bytes, NoMemory, Rec, Recs};
use std::alloc::Global;

/// Parses a record at the beginning of `bytes`. Returns it with the length of its encoding in bytes, or `None` if
/// `bytes` begins with no such encoding; `NoMemory` if memory runs out.
pub fn read_rec(alloc: Global, bytes: &[u8]) -> Result<Option<(Rec, usize)>, NoMemory>
    ensures found { IfOk result (λ r. IfSome r (IsPrefix SpeltRec bytes.now)) }
    ensures none { IfOk result (λ r. IfNone r (HasNoPrefix SpeltRec bytes.now)) }
    ensures again { ReadsAgain rec_bytes FitsRec bytes.now result }
{
    match crsm_text_fields::take_rec(alloc, bytes) {
        Ok(Some((rec, rest))) => Ok(Some((rec, bytes.len() - rest.len()))),
        Ok(None) => Ok(None),
        Err(NoMemory) => Err(NoMemory),
    }
}

/// Appends the encoding of a record. `NoMemory` if memory runs out; `out` is then unchanged.
pub fn write_rec(alloc: Global, rec: &Rec, out: &mut Bytes) -> Result<(), NoMemory>
    requires { FitsRec rec.now }
    ensures ok { OnOk result (out.new ≡ out.old ++ rec_bytes rec.now) }
    ensures err { OnErr result (out.new ≡ out.old) }
{
    let mut spelling = Bytes::new(alloc);
    let Ok(()) = crsm_text_fields::put_rec(rec, &mut spelling) else {
        drop(spelling);
        return Err(NoMemory);
    };
    out.append(spelling.as_slice())
}

/// Parses a whole log body, to its end. Returns its records, or `None` if the bytes are not one record or more;
/// `NoMemory` if memory runs out.
pub fn read_recs(alloc: Global, body: &[u8]) -> Result<Option<Recs>, NoMemory>
    ensures found { IfOk result (λ r. IfSome r (λ recs. SpeltBody recs body.now)) }
    ensures none { IfOk result (λ r. IfNone r ((recs : List Rec) → SpeltBody recs body.now → ⊥)) }
    ensures again { (recs : List Rec) → SpeltBody recs body.now → IfOk result (λ r. r ≡ Some recs) }
{
    if body.is_empty() {
        return Ok(None);
    }
    let mut recs = Recs::new(alloc);
    let mut rest = body;
    while !rest.is_empty() {
        let Ok(taken) = crsm_text_fields::take_rec(alloc, rest) else {
            drop(recs);
            return Err(NoMemory);
        };
        let Some((rec, after)) = taken else {
            drop(recs);
            return Ok(None);
        };
        let Ok(()) = recs.push(rec) else {
            drop(recs);
            return Err(NoMemory);
        };
        rest = after;
    }
    Ok(Some(recs))
}
