//! Readers and writers of stamps and ballots.

ghost use Rattle.std.specs.Prelude.{◌≡◌, ◌++◌, IfOk, IfSome, IfNone, OnOk, OnErr};
ghost use Rattle.crsm_base.specs.Spelling.{FitsBallot, FitsOption, FitsStamp, Spelt, SpeltBallot, SpeltStamp, ballot_bytes, option_bytes, stamp_bytes};
ghost use Rattle.crsm_codec.specs.Readers.{IsPrefix, HasNoPrefix, ReadsAgain};

use crsm_base::{Ballot, Bytes, NoMemory, Stamp};
use std::alloc::Global;

/// Parses a stamp at the beginning of `bytes`. Returns it with the length of its encoding in bytes, or `None` if
/// `bytes` begins with no such encoding.
pub fn read_stamp(_alloc: Global, bytes: &[u8]) -> Result<Option<(Stamp, usize)>, NoMemory>
    ensures found { IfOk result (λ r. IfSome r (IsPrefix SpeltStamp bytes.now)) }
    ensures none { IfOk result (λ r. IfNone r (HasNoPrefix SpeltStamp bytes.now)) }
    ensures again { ReadsAgain stamp_bytes FitsStamp bytes.now result }
{
    match crsm_text_fields::take_stamp(bytes) {
        Some((stamp, rest)) => Ok(Some((stamp, bytes.len() - rest.len()))),
        None => Ok(None),
    }
}

/// Appends the encoding of a stamp. `NoMemory` if memory runs out; `out` is then unchanged.
pub fn write_stamp(alloc: Global, stamp: &Stamp, out: &mut Bytes) -> Result<(), NoMemory>
    requires { FitsStamp stamp.now }
    ensures ok { OnOk result (out.new ≡ out.old ++ stamp_bytes stamp.now) }
    ensures err { OnErr result (out.new ≡ out.old) }
{
    let mut spelling = Bytes::new(alloc);
    let Ok(()) = crsm_text_fields::put_stamp(*stamp, &mut spelling) else {
        drop(spelling);
        return Err(NoMemory);
    };
    out.append(spelling.as_slice())
}

/// Parses an optional stamp at the beginning of `bytes`. Returns it with the length of its encoding in bytes, or
/// `None` if `bytes` begins with no such encoding.
pub fn read_option_stamp(
    _alloc: Global,
    bytes: &[u8],
) -> Result<Option<(Option<Stamp>, usize)>, NoMemory>
    ensures found { IfOk result (λ r. IfSome r (IsPrefix (Spelt (option_bytes stamp_bytes) (FitsOption FitsStamp)) bytes.now)) }
    ensures none { IfOk result (λ r. IfNone r (HasNoPrefix (Spelt (option_bytes stamp_bytes) (FitsOption FitsStamp)) bytes.now)) }
    ensures again { ReadsAgain (option_bytes stamp_bytes) (FitsOption FitsStamp) bytes.now result }
{
    match crsm_text_fields::take_option_stamp(bytes) {
        Some((stamp, rest)) => Ok(Some((stamp, bytes.len() - rest.len()))),
        None => Ok(None),
    }
}

/// Appends the encoding of an optional stamp. `NoMemory` if memory runs out; `out` is then unchanged.
pub fn write_option_stamp(
    alloc: Global,
    stamp: &Option<Stamp>,
    out: &mut Bytes,
) -> Result<(), NoMemory>
    requires { FitsOption FitsStamp stamp.now }
    ensures ok { OnOk result (out.new ≡ out.old ++ option_bytes stamp_bytes stamp.now) }
    ensures err { OnErr result (out.new ≡ out.old) }
{
    let mut spelling = Bytes::new(alloc);
    let Ok(()) = crsm_text_fields::put_option_stamp(*stamp, &mut spelling) else {
        drop(spelling);
        return Err(NoMemory);
    };
    out.append(spelling.as_slice())
}

/// Parses a ballot at the beginning of `bytes`. Returns it with the length of its encoding in bytes, or `None` if
/// `bytes` begins with no such encoding.
pub fn read_ballot(_alloc: Global, bytes: &[u8]) -> Result<Option<(Ballot, usize)>, NoMemory>
    ensures found { IfOk result (λ r. IfSome r (IsPrefix SpeltBallot bytes.now)) }
    ensures none { IfOk result (λ r. IfNone r (HasNoPrefix SpeltBallot bytes.now)) }
    ensures again { ReadsAgain ballot_bytes FitsBallot bytes.now result }
{
    match crsm_text_fields::take_ballot(bytes) {
        Some((ballot, rest)) => Ok(Some((ballot, bytes.len() - rest.len()))),
        None => Ok(None),
    }
}

/// Appends the encoding of a ballot. `NoMemory` if memory runs out; `out` is then unchanged.
pub fn write_ballot(alloc: Global, ballot: &Ballot, out: &mut Bytes) -> Result<(), NoMemory>
    requires { FitsBallot ballot.now }
    ensures ok { OnOk result (out.new ≡ out.old ++ ballot_bytes ballot.now) }
    ensures err { OnErr result (out.new ≡ out.old) }
{
    let mut spelling = Bytes::new(alloc);
    let Ok(()) = crsm_text_fields::put_ballot(*ballot, &mut spelling) else {
        drop(spelling);
        return Err(NoMemory);
    };
    out.append(spelling.as_slice())
}
