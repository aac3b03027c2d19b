//! Readers and writers of members, decisions, and accepted ballots with their decisions.

ghost use Rattle.std.specs.Prelude.{◌≡◌, ◌++◌, IfOk, IfSome, IfNone, OnOk, OnErr};
ghost use Rattle.crsm_base.specs.Members.{IsMembers};
ghost use Rattle.crsm_base.specs.Spelling.{FitsDecision, FitsOption, Spelt, SpeltDecision, SpeltMembers, decision_bytes, members_bytes, option_bytes};
ghost use Rattle.crsm_base.specs.Messages.{FitsVote, vote_bytes};
ghost use Rattle.crsm_codec.specs.Readers.{IsPrefix, HasNoPrefix, ReadsAgain};

use crsm_base::{Ballot, Bytes, Decision, Members, NoMemory};
use std::alloc::Global;

/// Parses members at the beginning of `bytes`. Returns them with the length of its encoding in bytes, or `None` if
/// `bytes` begins with no such encoding; `NoMemory` if memory runs out.
pub fn read_members(alloc: Global, bytes: &[u8]) -> Result<Option<(Members, usize)>, NoMemory>
    ensures found { IfOk result (λ r. IfSome r (IsPrefix SpeltMembers bytes.now)) }
    ensures none { IfOk result (λ r. IfNone r (HasNoPrefix SpeltMembers bytes.now)) }
    ensures again { ReadsAgain members_bytes IsMembers bytes.now result }
{
    match crsm_text_fields::take_members(alloc, bytes) {
        Ok(Some((members, rest))) => Ok(Some((members, bytes.len() - rest.len()))),
        Ok(None) => Ok(None),
        Err(NoMemory) => Err(NoMemory),
    }
}

/// Appends the encoding of members. `NoMemory` if memory runs out; `out` is then unchanged.
pub fn write_members(alloc: Global, members: &Members, out: &mut Bytes) -> Result<(), NoMemory>
    ensures ok { OnOk result (out.new ≡ out.old ++ members_bytes members.now) }
    ensures err { OnErr result (out.new ≡ out.old) }
{
    let mut spelling = Bytes::new(alloc);
    let Ok(()) = crsm_text_fields::put_members(members, &mut spelling) else {
        drop(spelling);
        return Err(NoMemory);
    };
    out.append(spelling.as_slice())
}

/// Parses a decision at the beginning of `bytes`. Returns it with the length of its encoding in bytes, or `None` if
/// `bytes` begins with no such encoding; `NoMemory` if memory runs out.
pub fn read_decision(alloc: Global, bytes: &[u8]) -> Result<Option<(Decision, usize)>, NoMemory>
    ensures found { IfOk result (λ r. IfSome r (IsPrefix SpeltDecision bytes.now)) }
    ensures none { IfOk result (λ r. IfNone r (HasNoPrefix SpeltDecision bytes.now)) }
    ensures again { ReadsAgain decision_bytes FitsDecision bytes.now result }
{
    match crsm_text_fields::take_decision(alloc, bytes) {
        Ok(Some((decision, rest))) => Ok(Some((decision, bytes.len() - rest.len()))),
        Ok(None) => Ok(None),
        Err(NoMemory) => Err(NoMemory),
    }
}

/// Appends the encoding of a decision. `NoMemory` if memory runs out; `out` is then unchanged.
pub fn write_decision(alloc: Global, decision: &Decision, out: &mut Bytes) -> Result<(), NoMemory>
    requires { FitsDecision decision.now }
    ensures ok { OnOk result (out.new ≡ out.old ++ decision_bytes decision.now) }
    ensures err { OnErr result (out.new ≡ out.old) }
{
    let mut spelling = Bytes::new(alloc);
    let Ok(()) = crsm_text_fields::put_decision(decision, &mut spelling) else {
        drop(spelling);
        return Err(NoMemory);
    };
    out.append(spelling.as_slice())
}

/// Parses an optional accepted ballot and decision at the beginning of `bytes`. Returns it with the length of its
/// encoding in bytes, or `None` if `bytes` begins with no such encoding; `NoMemory` if memory runs out.
pub fn read_option_vote(
    alloc: Global,
    bytes: &[u8],
) -> Result<Option<(Option<(Ballot, Decision)>, usize)>, NoMemory>
    ensures found { IfOk result (λ r. IfSome r (IsPrefix (Spelt (option_bytes vote_bytes) (FitsOption FitsVote)) bytes.now)) }
    ensures none { IfOk result (λ r. IfNone r (HasNoPrefix (Spelt (option_bytes vote_bytes) (FitsOption FitsVote)) bytes.now)) }
    ensures again { ReadsAgain (option_bytes vote_bytes) (FitsOption FitsVote) bytes.now result }
{
    match crsm_text_fields::take_option_vote(alloc, bytes) {
        Ok(Some((vote, rest))) => Ok(Some((vote, bytes.len() - rest.len()))),
        Ok(None) => Ok(None),
        Err(NoMemory) => Err(NoMemory),
    }
}

/// Appends the encoding of an optional accepted ballot and decision. `NoMemory` if memory runs out; `out` is then
/// unchanged.
pub fn write_option_vote(
    alloc: Global,
    vote: &Option<(Ballot, Decision)>,
    out: &mut Bytes,
) -> Result<(), NoMemory>
    requires { FitsOption FitsVote vote.now }
    ensures ok { OnOk result (out.new ≡ out.old ++ option_bytes vote_bytes vote.now) }
    ensures err { OnErr result (out.new ≡ out.old) }
{
    let mut spelling = Bytes::new(alloc);
    let Ok(()) = crsm_text_fields::put_option_vote(vote, &mut spelling) else {
        drop(spelling);
        return Err(NoMemory);
    };
    out.append(spelling.as_slice())
}
