//! The beginning of a membership change: the known epoch is suspended, and its frozen logs are collected.

ghost use Rattle.std.specs.Prelude.{◌≡◌, ◌≤◌, ◌&&◌, ℕ, None, List, IfOk};
ghost use Rattle.std.specs.List.{list_all};
ghost use Rattle.crsm_base.specs.declared.Control.{Control as ControlOnPaper};
ghost use Rattle.crsm_spec.specs.Lists.{has, numbers_below};
ghost use Rattle.crsm_spec.specs.Fits.{can_be_members};
ghost use Rattle.crsm_spec.specs.Log.{known};
ghost use Rattle.crsm_spec.specs.Replica.{spec_of, next_spec, named_spec};
ghost use Rattle.crsm_spec.specs.Draft.{Draft, send_to_all};
ghost use Rattle.crsm_spec.specs.Coordinate as coordinate;
ghost use Rattle.crsm_replica.specs.Replica.{ReplicaStands, Makes};
ghost use Rattle.crsm_replica_reconfigure.specs.Reports.{CanBegin, begins_fitting, Begun};
ghost use Rattle.crsm_replica_reconfigure.specs.Rules.{Follows, BeginsAlike};

use crate::beginning::may_begin;
use crate::collecting::{NO_BALLOT, go_on};
use crate::suspending::suspend_once;
use crate::telling::tell_all;
use crsm_base::{Control, Members, NoMemory, are_among, can_be_members, first_replicas};
use crsm_replica::{ReplicaState, states_are_sound};
use crsm_suspend::{Collect, PageOutcome, got_is_by_the_rules};

/// Greatest known epoch, and greatest start in entries, at which a collection begins: that plus a tail stays below
/// 2^64.
const MOST_COLLECTED: u64 = u64::MAX - 4_096;

/// Begins a membership change to `members`, on a suspicion or an operator's request. `NoMemory` if memory runs out.
pub fn on_suspect(state: &mut ReplicaState, members: &Members) -> Result<(), NoMemory>
    ensures { Follows (coordinate.on_suspect members.now) state.old result state.new }
{
    states_are_sound();
    got_is_by_the_rules();
    let Some(mut collect) = begin(state, members)? else {
        return Ok(());
    };
    let me = state.me();
    let Ok(got) = collect.take_own(me, state.ledger()) else {
        drop(collect);
        return Err(NoMemory);
    };
    let Ok(fits) = may_go_on(state, &got) else {
        drop((collect, got));
        return Err(NoMemory);
    };
    if !fits {
        drop((collect, got));
        return Ok(());
    }
    let Ok(()) = suspend_all(state) else {
        drop((collect, got));
        return Err(NoMemory);
    };
    go_on(state, me, collect, got)
}

/// Returns a collection for the next epoch without pages, or `None` if these cannot be its members.
fn begin(state: &ReplicaState, members: &Members) -> Result<Option<Collect>, NoMemory>
    ensures { IfOk result (λ found. (x : Draft) → ReplicaStands state.now x → Begun found members.now x) }
{
    let epoch = state.known();
    let start = state.start();
    if epoch > MOST_COLLECTED {
        return Ok(None);
    }
    if start > MOST_COLLECTED {
        return Ok(None);
    }
    let spec = state.spec()?;
    let next = next_spec(state, &spec, members)?;
    let can = can_be_next(state, &next, members);
    if !can {
        return Ok(None);
    }
    let named = named_spec(state, next);
    let members = members.copy(state.alloc())?;
    let collect = Collect::start(state.alloc(), epoch, start, spec, named, members);
    Ok(Some(collect))
}

/// Returns the counted replicas of the next epoch with these members: the present ones if they include all members,
/// else the members.
fn next_spec(state: &ReplicaState, spec: &Members, members: &Members) -> Result<Members, NoMemory>
    ensures { IfOk result (λ next. (x : Draft) → spec.now ≡ spec_of x.replica → next ≡ next_spec x.replica members.now) }
{
    let are_of_spec = are_among(members.as_slice(), spec.as_slice());
    if are_of_spec {
        return spec.copy(state.alloc());
    }
    members.copy(state.alloc())
}

/// Returns the counted replicas of the next epoch as a decision names them: `None` if they are the replicas that began
/// the cluster.
fn named_spec(state: &ReplicaState, next: Members) -> Option<Members>
    ensures { (x : Draft) (ms : List ℕ) → ReplicaStands state.now x → next ≡ next_spec x.replica ms → result ≡ named_spec x.replica ms }
{
    states_are_sound();
    let first = first_replicas(state.ledger().n());
    let is_first = next.as_slice() == first;
    if is_first {
        return None;
    }
    Some(next)
}

/// Returns whether this replica counts, and these can be the members of an epoch whose counted replicas are `next`.
fn can_be_next(state: &ReplicaState, next: &Members, members: &Members) -> bool
    ensures { (x : Draft) → ReplicaStands state.now x → result ≡ (has (spec_of x.replica) x.replica.me && can_be_members next.now members.now) }
{
    let me = state.me();
    let is_of_spec = state.is_of_spec(me);
    is_of_spec & can_be_members(next.as_slice(), members.as_slice())
}

/// Returns whether the records for acting on this outcome would fit once the epoch is suspended.
#[tactic(auto, unfolding(crate::specs::Reports::begins_fitting))]
fn may_go_on(state: &ReplicaState, got: &PageOutcome) -> Result<bool, NoMemory>
    ensures { IfOk result (λ fit. (x y : Draft) → ReplicaStands state.now x → CanBegin got.now x → BeginsAlike x y → fit ≡ begins_fitting got.now y) }
{
    match got {
        PageOutcome::Complete(decision) => may_begin(state, decision, NO_BALLOT),
        PageOutcome::Stranger => Ok(true),
        PageOutcome::More { .. } => Ok(true),
        PageOutcome::Kept => Ok(true),
        PageOutcome::TooMany { .. } => Ok(true),
    }
}

/// Suspends this replica, and asks each other counted replica for its frozen log.
fn suspend_all(state: &mut ReplicaState) -> Result<(), NoMemory>
    ensures { Makes (λ x. send_to_all (ControlOnPaper.Suspend (known (coordinate.suspend_once x).replica.log) None) (coordinate.suspend_once x)) state.old result state.new }
{
    states_are_sound();
    suspend_once(state)?;
    send_suspend(state)
}

/// Asks each other counted replica for its frozen log.
fn send_suspend(state: &mut ReplicaState) -> Result<(), NoMemory>
    ensures { Makes (λ x. send_to_all (ControlOnPaper.Suspend (known x.replica.log) None) x) state.old result state.new }
{
    let epoch = state.known();
    let control = Control::Suspend { epoch, after: None };
    tell_all(state, control)
}
