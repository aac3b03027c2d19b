//! Records read one by one from the bytes of a body, each as the fields of its kind: as a `Rec`, each would be moved
//! several times. A record that does not fit, or is rare, is left to the caller, which reads it as a `Rec`.

ghost use Rattle.std.specs.Prelude.{◌≡◌, ◌<◌, ◌≤◌, ◌+◌, ◌++◌, ℕ, None, Some, length, IfOk, IfSome, MatchOption, OnOk};
ghost use Rattle.std.specs.List.{AllByRecursion};
ghost use Rattle.std.specs.Option.{option_map};
ghost use Rattle.crsm_base.specs.RecordReading.{accept_at, adopt_at, boot_at, commit_at, decide_rec_at, enter_at, prepare_rec_at, promise_at, rec_at, suspend_rec_at};
ghost use Rattle.crsm_base.specs.Spelling.{FitsBallot, FitsEntry, decision_bytes, entries_bytes, members_bytes, spec_bytes};
ghost use Rattle.crsm_base.specs.declared.Rec.{Rec};
ghost use Rattle.crsm_spec.specs.Types.{Ballot as BallotOnPaper, Decision as DecisionOnPaper};
ghost use Rattle.crsm_ledger.specs.Ledger.{Follows};
ghost use Rattle.crsm_ledger.specs.Taken.{IsAgain, IsAtHand, IsNext, IsTail, IsTaken};

use crate::ledger::Ledger;
use crsm_base::{Ballot, Decision, Members, NoMemory};
use crsm_text_fields::{
    take_ballot, take_decision, take_entry, take_replica, take_stamp, take_u8, take_u64,
};

/// The bytes still to be read, with the encodings of the last accepted decision and of the tail of the known one, if
/// they were read before: a log mostly repeats them.
#[derive(Clone, Copy)]
pub(crate) struct Remaining<'a> {
    pub rest: &'a [u8],
    pub accepted: &'a [u8],
    pub tail: &'a [u8],
}

impl Ledger {
    #[tactic(auto, unfolding(crsm_base::specs::RecordReading::rec_at))]
    /// Applies the record that these bytes begin with, and returns the bytes after it. `None` changes nothing;
    /// `NoMemory` if memory runs out.
    pub(crate) fn take_next<'a>(
        &mut self,
        accepted: &'a [u8],
        tail: &'a [u8],
        bytes: &'a [u8],
    ) -> Result<Option<Remaining<'a>>, NoMemory>
        requires accepted { IsAtHand accepted.now self.old.accepted }
        requires tail { IsTail tail.now self.old.known }
        ensures { IfOk result (λ r. MatchOption r (self.new ≡ self.old) (λ next. IsNext (rec_at bytes.now) next.accepted.now next.tail.now next.rest.now self.old self.new)) }
    {
        let Some((tag, text)) = take_u8(bytes) else {
            return Ok(None);
        };
        let behind = match tag {
            1 => Ok(self.take_boot(text)),
            2 => self.take_prepare(text),
            3 => self.take_commit(text),
            4 => self.take_adopt(tail, text),
            5 => Ok(self.take_suspend(text)),
            6 => Ok(self.take_promise(text)),
            7 => return self.take_accept(accepted, tail, text),
            8 => return Ok(self.take_decide(accepted, text)),
            9 => Ok(self.take_enter(text)),
            _ => Ok(None),
        };
        match behind? {
            Some(rest) => Ok(Some(Remaining {
                rest,
                accepted,
                tail,
            })),
            None => Ok(None),
        }
    }

    fn take_boot<'a>(&mut self, bytes: &'a [u8]) -> Option<&'a [u8]>
        ensures { MatchOption result (self.new ≡ self.old) (λ rest. IsTaken (boot_at bytes.now) rest.now self.old self.new) }
    {
        let Some((me, n, rest)) = boot_numbers(bytes) else {
            return None;
        };
        if !self.fits_boot(me, n) {
            return None;
        }
        self.follow_boot();
        Some(rest)
    }

    #[tactic(auto, unfolding(crsm_base::specs::RecordReading::prepare_rec_at))]
    fn take_prepare<'a>(&mut self, bytes: &'a [u8]) -> Result<Option<&'a [u8]>, NoMemory>
        ensures { IfOk result (λ r. MatchOption r (self.new ≡ self.old) (λ rest. IsTaken (prepare_rec_at bytes.now) rest.now self.old self.new)) }
    {
        let Some((entry, rest)) = take_entry(self.alloc, bytes)? else {
            return Ok(None);
        };
        if !self.fits_prepare(&entry) {
            drop(entry);
            return Ok(None);
        }
        self.follow_prepare(entry)?;
        Ok(Some(rest))
    }

    #[tactic(auto, unfolding(crsm_base::specs::RecordReading::commit_at))]
    fn take_commit<'a>(&mut self, bytes: &'a [u8]) -> Result<Option<&'a [u8]>, NoMemory>
        ensures { IfOk result (λ r. MatchOption r (self.new ≡ self.old) (λ rest. IsTaken (commit_at bytes.now) rest.now self.old self.new)) }
    {
        let Some((stamp, rest)) = take_stamp(bytes) else {
            return Ok(None);
        };
        if !self.fits_commit(stamp) {
            return Ok(None);
        }
        self.follow_commit()?;
        Ok(Some(rest))
    }

    #[tactic(auto, unfolding(crsm_base::specs::RecordReading::suspend_rec_at))]
    fn take_suspend<'a>(&mut self, bytes: &'a [u8]) -> Option<&'a [u8]>
        ensures { MatchOption result (self.new ≡ self.old) (λ rest. IsTaken (suspend_rec_at bytes.now) rest.now self.old self.new) }
    {
        let (epoch, rest) = take_u64(bytes)?;
        if !self.fits_suspend(epoch) {
            return None;
        }
        self.follow_suspend();
        Some(rest)
    }

    #[tactic(auto, unfolding(crsm_base::specs::RecordReading::promise_at))]
    fn take_promise<'a>(&mut self, bytes: &'a [u8]) -> Option<&'a [u8]>
        ensures { MatchOption result (self.new ≡ self.old) (λ rest. IsTaken (promise_at bytes.now) rest.now self.old self.new) }
    {
        let Some((instance, rest)) = take_u64(bytes) else {
            return None;
        };
        let Some((ballot, text)) = take_ballot(rest) else {
            return None;
        };
        if !self.fits_promise(instance, ballot) {
            return None;
        }
        self.follow_promise(ballot);
        Some(text)
    }

    #[tactic(auto, unfolding(crsm_base::specs::RecordReading::enter_at))]
    fn take_enter<'a>(&mut self, bytes: &'a [u8]) -> Option<&'a [u8]>
        ensures { MatchOption result (self.new ≡ self.old) (λ rest. IsTaken (enter_at bytes.now) rest.now self.old self.new) }
    {
        let (epoch, rest) = take_u64(bytes)?;
        if !self.fits_enter(epoch) {
            return None;
        }
        self.follow_enter();
        Some(rest)
    }

    #[tactic(auto, unfolding(crsm_base::specs::RecordReading::accept_at))]
    fn take_accept<'a>(
        &mut self,
        accepted: &'a [u8],
        tail: &'a [u8],
        bytes: &'a [u8],
    ) -> Result<Option<Remaining<'a>>, NoMemory>
        requires accepted { IsAtHand accepted.now self.old.accepted }
        requires tail { IsTail tail.now self.old.known }
        ensures { IfOk result (λ r. MatchOption r (self.new ≡ self.old) (λ next. IsNext (accept_at bytes.now) next.accepted.now next.tail.now next.rest.now self.old self.new)) }
    {
        let Some((instance, rest)) = take_u64(bytes) else {
            return Ok(None);
        };
        let Some((ballot, text)) = take_ballot(rest) else {
            return Ok(None);
        };
        if let Some(rest) = self.accept_again(accepted, instance, ballot, text) {
            return Ok(Some(Remaining {
                rest,
                accepted,
                tail,
            }));
        }
        let Some((decision, rest)) = take_decision(self.alloc, text)? else {
            return Ok(None);
        };
        if !self.fits_accept(instance, ballot, &decision) {
            drop(decision);
            return Ok(None);
        }
        self.follow_accept(ballot, decision);
        let accepted = &text[..text.len() - rest.len()];
        Ok(Some(Remaining {
            rest,
            accepted,
            tail,
        }))
    }

    /// Accepts the last accepted decision again, if these are its bytes.
    fn accept_again<'a>(
        &mut self,
        accepted: &[u8],
        instance: u64,
        ballot: Ballot,
        bytes: &'a [u8],
    ) -> Option<&'a [u8]>
        requires ballot { FitsBallot ballot }
        requires at_hand { IsAtHand accepted.now self.old.accepted }
        ensures { MatchOption result (self.new ≡ self.old) (λ rest. IsAgain accepted.now instance ballot bytes.now rest.now self.old self.new) }
    {
        let rest = behind(accepted, bytes)?;
        let Some((_, decision)) = self.accepted.get() else {
            return None;
        };
        if !self.fits_accept(instance, ballot, decision) {
            return None;
        }
        self.follow_again(ballot);
        Some(rest)
    }

    #[tactic(auto, unfolding(crsm_base::specs::RecordReading::decide_rec_at))]
    fn take_decide<'a>(&mut self, accepted: &'a [u8], bytes: &'a [u8]) -> Option<Remaining<'a>>
        requires { IsAtHand accepted.now self.old.accepted }
        ensures { MatchOption result (self.new ≡ self.old) (λ next. IsNext (decide_rec_at bytes.now) next.accepted.now next.tail.now next.rest.now self.old self.new) }
    {
        let rest = behind(accepted, bytes)?;
        let Some((_, decision)) = self.accepted.get() else {
            return None;
        };
        if !self.fits_decide(decision) {
            return None;
        }
        let tail = tail_of(decision, accepted);
        self.follow_accepted();
        Some(Remaining {
            rest,
            accepted,
            tail,
        })
    }

    /// Executes the tail of the known decision, if the bytes are its encoding.
    #[tactic(auto, unfolding(crsm_base::specs::RecordReading::adopt_at))]
    fn take_adopt<'a>(&mut self, tail: &[u8], bytes: &'a [u8]) -> Result<Option<&'a [u8]>, NoMemory>
        requires { IsTail tail.now self.old.known }
        ensures { IfOk result (λ r. MatchOption r (self.new ≡ self.old) (λ rest. IsTaken (adopt_at bytes.now) rest.now self.old self.new)) }
    {
        let Some((place, text)) = take_u64(bytes) else {
            return Ok(None);
        };
        let Some(rest) = behind(tail, text) else {
            return Ok(None);
        };
        if !self.fits_adopt(place, self.known.get().tail.as_slice()) {
            return Ok(None);
        }
        self.follow_tail()?;
        Ok(Some(rest))
    }

    /// Executes the entries of the tail of the known decision.
    fn follow_tail(&mut self) -> Result<(), NoMemory>
        requires { AllByRecursion FitsEntry self.old.known.tail }
        ensures kept { (place : ℕ) → OnOk result (Follows self.old (Rec.Adopt place self.old.known.tail) self.new) }
        ensures accepted { self.new.accepted ≡ self.old.accepted }
        ensures known { self.new.known ≡ self.old.known }
        ensures mark { self.new.is_spent ≡ self.old.is_spent }
    {
        self.held.run_all(self.known.get().tail.as_slice())?;
        Ok(())
    }

    /// Accepts the last accepted decision again, in this ballot.
    fn follow_again(&mut self, ballot: Ballot)
        requires { FitsBallot ballot }
        ensures kept { (i : ℕ) (b : BallotOnPaper) (d : DecisionOnPaper) → self.old.accepted ≡ Some (b, d) → Follows self.old (Rec.Accept i ballot d) self.new }
        ensures accepted { (b : BallotOnPaper) (d : DecisionOnPaper) → self.old.accepted ≡ Some (b, d) → self.new.accepted ≡ Some (ballot, d) }
        ensures known { self.new.known ≡ self.old.known }
        ensures mark { self.new.is_spent ≡ self.old.is_spent }
    {
        if let Some((_, decision)) = self.accepted.take() {
            self.follow_accept(ballot, decision);
        }
    }

    /// Makes the last accepted decision the known one.
    fn follow_accepted(&mut self)
        ensures kept { (b : BallotOnPaper) (d : DecisionOnPaper) → self.old.accepted ≡ Some (b, d) → Follows self.old (Rec.Decide d) self.new }
        ensures accepted { self.new.accepted ≡ None }
        ensures known { (b : BallotOnPaper) (d : DecisionOnPaper) → self.old.accepted ≡ Some (b, d) → self.new.known ≡ d }
        ensures mark { self.new.is_spent ≡ self.old.is_spent }
    {
        if let Some((_, decision)) = self.accepted.take() {
            self.follow_decide(decision);
        }
    }
}

/// Returns the numbers that a boot names, of its replica and of the replicas at first, and the bytes after them.
#[tactic(auto, unfolding(crsm_base::specs::RecordReading::boot_at))]
fn boot_numbers(bytes: &[u8]) -> Option<(u32, u32, &[u8])>
    ensures { option_map (λ b. (Rec.Boot b.0 b.1, b.2.now)) result ≡ boot_at bytes.now }
{
    let (me, rest) = take_replica(bytes)?;
    let (n, rest) = take_u8(rest)?;
    Some((me, u32::from(n), rest))
}

/// Returns the bytes after the prefix `first`, or `None` if the bytes do not begin with it.
fn behind<'a>(first: &[u8], bytes: &'a [u8]) -> Option<&'a [u8]>
    ensures { IfSome result (λ rest. (0 < length first.now) × (bytes.now ≡ first.now ++ rest.now)) }
{
    if first.is_empty() || first.len() > bytes.len() {
        return None;
    }
    let (start, rest) = bytes.split_at(first.len());
    if start == first { Some(rest) } else { None }
}

/// Returns the encoded length in bytes of a set of replicas that a decision may name.
#[tactic(auto, unfolding(crsm_base::specs::Spelling::spec_bytes))]
fn spec_len(spec: &Option<Members>) -> usize
    ensures len { result ≡ length (spec_bytes spec.now) }
    ensures most { result ≤ 16 }
{
    match spec {
        Some(replicas) => 1 + replicas.count() as usize,
        None => 0,
    }
}

/// Returns the encoded length of members in bytes.
#[tactic(auto, unfolding(crsm_base::specs::Spelling::members_bytes))]
fn members_len(members: &Members) -> usize
    ensures len { result ≡ length (members_bytes members.now) }
    ensures most { result ≤ 16 }
{
    1 + members.count() as usize
}

/// Returns the encoded length in bytes of a decision without its tail.
fn head_of(decision: &Decision) -> usize
    ensures { result ≡ 8 + (length (spec_bytes decision.now.spec) + (length (members_bytes decision.now.members) + 8)) }
{
    8 + spec_len(&decision.spec) + members_len(&decision.members) + 8
}

/// Returns the bytes of the tail among the bytes of a decision.
fn tail_of<'a>(decision: &Decision, bytes: &'a [u8]) -> &'a [u8]
    requires { bytes.now ≡ decision_bytes decision.now }
    ensures { result.now ≡ entries_bytes decision.now.tail }
{
    &bytes[head_of(decision)..]
}
