//! The log body of a group of steps.

ghost use Rattle.std.specs.Prelude.{◌≡◌, ◌++◌, List, OnOk};
ghost use Rattle.std.specs.List.{AllByRecursion};
ghost use Rattle.crsm_base.specs.declared.Rec.{Rec};
ghost use Rattle.crsm_base.specs.Records.{FitsRec, body_bytes};

use crsm_base::{Bytes, NoMemory, Rec};
use crsm_text_fields::put_rec;

/// Appends the encodings of one more step's records to the body. `NoMemory` if memory runs out; a prefix of them may
/// then have been appended.
#[tactic(auto, unfolding(crsm_base::specs::Records::body_bytes))]
pub fn write_records(records: &[Rec], body: &mut Bytes) -> Result<(), NoMemory>
    requires { AllByRecursion FitsRec records.now }
    ensures behind { OnOk result (body.new ≡ body.old ++ body_bytes records.now) }
    ensures one_body { OnOk result ((before : List Rec) → body.old ≡ body_bytes before → body.new ≡ body_bytes (before ++ records.now)) }
{
    for rec in records {
        put_rec(rec, body)?;
    }
    Ok(())
}
