//! Readers and writers of answers and outcomes.

ghost use Rattle.std.specs.Prelude.{◌≡◌, ◌++◌, IfOk, IfSome, IfNone, OnOk, OnErr};
ghost use Rattle.crsm_base.specs.Spelling.{FitsAnswer, FitsOutcome, SpeltAnswer, SpeltOutcome, answer_bytes, outcome_bytes};
ghost use Rattle.crsm_codec.specs.Readers.{IsPrefix, HasNoPrefix, ReadsAgain};

use crsm_base::{Answer, Bytes, NoMemory, Outcome};
use std::alloc::Global;

/// Parses an answer of the store at the beginning of `bytes`. Returns it with the length of its encoding in bytes, or
/// `None` if `bytes` begins with no such encoding; `NoMemory` if memory runs out.
pub fn read_answer(alloc: Global, bytes: &[u8]) -> Result<Option<(Answer, usize)>, NoMemory>
    ensures found { IfOk result (λ r. IfSome r (IsPrefix SpeltAnswer bytes.now)) }
    ensures none { IfOk result (λ r. IfNone r (HasNoPrefix SpeltAnswer bytes.now)) }
    ensures again { ReadsAgain answer_bytes FitsAnswer bytes.now result }
{
    match crsm_text_fields::take_answer(alloc, bytes) {
        Ok(Some((answer, rest))) => Ok(Some((answer, bytes.len() - rest.len()))),
        Ok(None) => Ok(None),
        Err(NoMemory) => Err(NoMemory),
    }
}

/// Appends the encoding of an answer of the store. `NoMemory` if memory runs out; `out` is then unchanged.
pub fn write_answer(alloc: Global, answer: &Answer, out: &mut Bytes) -> Result<(), NoMemory>
    requires { FitsAnswer answer.now }
    ensures ok { OnOk result (out.new ≡ out.old ++ answer_bytes answer.now) }
    ensures err { OnErr result (out.new ≡ out.old) }
{
    let mut spelling = Bytes::new(alloc);
    let Ok(()) = crsm_text_fields::put_answer(answer, &mut spelling) else {
        drop(spelling);
        return Err(NoMemory);
    };
    out.append(spelling.as_slice())
}

/// Parses an outcome at the beginning of `bytes`. Returns it with the length of its encoding in bytes, or `None` if
/// `bytes` begins with no such encoding; `NoMemory` if memory runs out.
pub fn read_outcome(alloc: Global, bytes: &[u8]) -> Result<Option<(Outcome, usize)>, NoMemory>
    ensures found { IfOk result (λ r. IfSome r (IsPrefix SpeltOutcome bytes.now)) }
    ensures none { IfOk result (λ r. IfNone r (HasNoPrefix SpeltOutcome bytes.now)) }
    ensures again { ReadsAgain outcome_bytes FitsOutcome bytes.now result }
{
    match crsm_text_fields::take_outcome(alloc, bytes) {
        Ok(Some((outcome, rest))) => Ok(Some((outcome, bytes.len() - rest.len()))),
        Ok(None) => Ok(None),
        Err(NoMemory) => Err(NoMemory),
    }
}

/// Appends the encoding of an outcome. `NoMemory` if memory runs out; `out` is then unchanged.
pub fn write_outcome(alloc: Global, outcome: &Outcome, out: &mut Bytes) -> Result<(), NoMemory>
    requires { FitsOutcome outcome.now }
    ensures ok { OnOk result (out.new ≡ out.old ++ outcome_bytes outcome.now) }
    ensures err { OnErr result (out.new ≡ out.old) }
{
    let mut spelling = Bytes::new(alloc);
    let Ok(()) = crsm_text_fields::put_outcome(outcome, &mut spelling) else {
        drop(spelling);
        return Err(NoMemory);
    };
    out.append(spelling.as_slice())
}
