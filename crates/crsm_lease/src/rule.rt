//! The rules of locks: the operation for an action, and the result to report.

ghost use Rattle.std.specs.Prelude.{◌≡◌, ℕ, IfOk, List, None, Option, Some};
ghost use Rattle.std.specs.Option.{option_copied};
ghost use Rattle.crsm_base.specs.declared.command.Op.{Op as Operation};
ghost use Rattle.crsm_base.specs.Spelling.{refusal_number};
ghost use Rattle.crsm_lease.specs.declared.lock.Lock.{Lock as Found};
ghost use Rattle.crsm_lease.specs.declared.rule.NextStep.{NextStep as Follows};
ghost use Rattle.crsm_lease.specs.Locks.{FitsLock};
ghost use Rattle.crsm_lease.specs.Rules.{Asks, FollowsCas, FollowsGet, IsAsked, IsRuled, cas_to, done_of, found_by, granted, next_of, rule};

use crate::lock::{Lock, read_lock, write_lock};
use crate::told::Told;
use crsm_base::{Answer, Key, NoMemory, Op, Outcome, Refusal, Val};
use std::alloc::Global;

/// The action of a client on a lock.
#[derive(Clone, Copy, Debug, PartialEq, Eq)]
pub enum Action {
    Take,
    Give,
    /// Takes the lock from its owner.
    Break,
}

/// The ruling on an action, given the state of the lock.
#[derive(Clone, Copy, Debug, PartialEq, Eq)]
pub enum Ruling {
    /// The lock is to become this one.
    Becomes(Lock),
    /// The lock stays as it is, and this result is reported.
    Tells(Told),
}

/// The next step after the key was read.
#[derive(Drop)]
pub enum NextStep {
    /// Send this operation under the client's next number.
    Ask(Op),
    /// Report this result and stop.
    End(Told),
}

#[tactic(auto, unfolding(crate::specs::Rules::granted))]
fn grant(me: u64, fence: u64) -> Ruling
    ensures { result ≡ granted me fence }
{
    if fence < u64::MAX {
        Ruling::Becomes(Lock::Held {
            fence: fence + 1,
            owner: me,
        })
    } else {
        Ruling::Tells(Told::Spent)
    }
}

#[tactic(auto, unfolding(crate::specs::Rules::rule, crate::specs::Rules::found_by))]
fn decide(action: Action, me: u64, lock: Lock) -> Ruling
    ensures { result ≡ rule action me (found_by me lock) }
{
    match lock {
        Lock::Free { fence } => match action {
            Action::Take | Action::Break => grant(me, fence),
            Action::Give => Ruling::Tells(Told::Free { fence }),
        },
        Lock::Held { fence, owner } if owner == me => match action {
            Action::Take | Action::Break => Ruling::Tells(Told::Granted { fence }),
            Action::Give => Ruling::Becomes(Lock::Free { fence }),
        },
        Lock::Held { fence, owner } => match action {
            Action::Take | Action::Give => Ruling::Tells(Told::Held { owner, fence }),
            Action::Break => grant(me, fence),
        },
    }
}

fn copy_of(alloc: Global, value: Option<&Val>) -> Result<Option<Val>, NoMemory>
    ensures { IfOk result (λ copy. copy ≡ option_copied value.entry) }
{
    match value {
        Some(value) => Ok(Some(value.copy(alloc)?)),
        None => Ok(None),
    }
}

fn after_ruling(
    alloc: Global,
    key: &Key,
    found: Option<&Val>,
    ruling: Ruling,
) -> Result<NextStep, NoMemory>
    ensures { IfOk result (λ next. next ≡ next_of key.now (option_copied found.entry) ruling) }
{
    match ruling {
        Ruling::Becomes(lock) => Ok(NextStep::Ask(Op::Cas(
            key.copy(alloc)?,
            copy_of(alloc, found)?,
            Some(write_lock(alloc, lock)?),
        ))),
        Ruling::Tells(told) => Ok(NextStep::End(told)),
    }
}

fn after_found(
    alloc: Global,
    action: Action,
    me: u64,
    key: &Key,
    value: &Val,
) -> Result<NextStep, NoMemory>
    ensures { IfOk result (IsRuled action me key.now (Some value.now)) }
{
    match read_lock(value.as_slice()) {
        Some(lock) => after_ruling(alloc, key, Some(value), decide(action, me, lock)),
        None => Ok(NextStep::End(Told::NotALock)),
    }
}

fn after_missing(alloc: Global, action: Action, me: u64, key: &Key) -> Result<NextStep, NoMemory>
    ensures { IfOk result (IsRuled action me key.now None) }
{
    after_ruling(
        alloc,
        key,
        None,
        decide(action, me, Lock::Free { fence: 0 }),
    )
}

fn refused(why: Refusal) -> Told
    ensures { result ≡ Told.Refused (refusal_number why) }
{
    let code = match why {
        Refusal::NotLive => 1,
        Refusal::Suspended => 2,
        Refusal::Busy => 3,
        Refusal::Congested => 4,
        Refusal::ClockSpent => 5,
        Refusal::Dropped => 6,
    };
    Told::Refused { code }
}

/// Returns the next step after the outcome of a Get of the key. `me` is the number of the client. `NoMemory` if memory
/// runs out.
pub fn after_get(
    alloc: Global,
    action: Action,
    me: u64,
    key: &Key,
    outcome: &Outcome,
) -> Result<NextStep, NoMemory>
    ensures follows { IfOk result (FollowsGet action me key.now outcome.now) }
    ensures asks { IfOk result (λ next. (op : Operation) → next ≡ NextStep.Ask op → Asks action me op) }
{
    match outcome {
        Outcome::Answered(Answer::Found(value)) => after_found(alloc, action, me, key, value),
        Outcome::Answered(Answer::Missing) => after_missing(alloc, action, me, key),
        Outcome::Answered(Answer::Stale(number)) => {
            Ok(NextStep::End(Told::Stale { number: *number }))
        }
        Outcome::Answered(Answer::NoRoom) => Ok(NextStep::End(Told::NoRoom)),
        Outcome::Answered(Answer::Done | Answer::Differs(_)) => Ok(NextStep::End(Told::Odd)),
        Outcome::Refused(why) => Ok(NextStep::End(refused(*why))),
    }
}

fn after_done(op: &Op) -> Told
    requires { IsAsked op.now }
    ensures { (key : List ℕ) (found : Option (List ℕ)) (lock : Found) → FitsLock lock → op.now ≡ cas_to key found lock → result ≡ done_of lock }
{
    let Op::Cas(_, _, Some(new)) = op else {
        unreachable!();
    };
    match read_lock(new.as_slice()) {
        Some(Lock::Free { fence }) => Told::Released { fence },
        Some(Lock::Held { fence, .. }) => Told::Granted { fence },
        None => unreachable!(),
    }
}

/// Returns the result to report after the outcome of the Cas `op`.
pub fn after_cas(op: &Op, outcome: &Outcome) -> Told
    requires { IsAsked op.now }
    ensures { FollowsCas op.now outcome.now result }
{
    match outcome {
        Outcome::Answered(Answer::Done) => after_done(op),
        Outcome::Answered(Answer::Differs(_)) => Told::Raced,
        Outcome::Answered(Answer::Stale(number)) => Told::Stale { number: *number },
        Outcome::Answered(Answer::NoRoom) => Told::NoRoom,
        Outcome::Answered(Answer::Found(_) | Answer::Missing) => Told::Odd,
        Outcome::Refused(why) => refused(*why),
    }
}
