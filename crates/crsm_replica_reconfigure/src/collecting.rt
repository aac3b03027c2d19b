//! The collection of frozen logs, page by page, until those of a majority are whole.

ghost use Rattle.std.specs.Prelude.{◌≡◌, ◌≢◌, ◌<◌, IfOk};
ghost use Rattle.crsm_base.specs.Messages.{FitsControl};
ghost use Rattle.crsm_spec.specs.Log.{decision};
ghost use Rattle.crsm_spec.specs.Replica.{Coordinator as CoordinatorOnPaper};
ghost use Rattle.crsm_spec.specs.Draft.{Draft, noting};
ghost use Rattle.crsm_spec.specs.Controls as controls;
ghost use Rattle.crsm_spec.specs.Step as rules;
ghost use Rattle.crsm_suspend.specs.Collecting.{FitsGot};
ghost use Rattle.crsm_suspend.specs.Coordinating.{on_got};
ghost use Rattle.crsm_replica.specs.Replica.{ReplicaStands};
ghost use Rattle.crsm_replica_reconfigure.specs.Reports.{IsReport, CanGoOn, ask_missing, is_collecting};
ghost use Rattle.crsm_replica_reconfigure.specs.Rules.{FollowsWhere};
ghost use Rattle.crsm_replica_reconfigure.specs.Stages.{WhereCollecting, WhereGathering};

use crate::beginning::begin_proposing;
use crate::telling::tell;
use crsm_base::{Ballot, Control, NoMemory};
use crsm_replica::{ReplicaState, states_are_sound};
use crsm_replica_coordinator::{Coordinator, Stage};
use crsm_suspend::{Collect, PageOutcome, got_is_by_the_rules};

/// The ballot at the beginning of an instance, below each that asks for promises.
pub(crate) const NO_BALLOT: Ballot = Ballot { round: 0, by: 0 };

/// Takes a page of the frozen log of another replica `k`; only the page that was asked for counts. `NoMemory` if memory
/// runs out.
pub fn on_suspend_ok(state: &mut ReplicaState, k: u32, answer: &Control) -> Result<(), NoMemory>
    requires from { k < 15 }
    requires is { IsReport answer.now }
    requires spelt { FitsControl answer.now }
    ensures { FollowsWhere (λ x. k ≢ x.replica.me) (controls.on_control k answer.now) state.old result state.new }
{
    states_are_sound();
    got_is_by_the_rules();
    let is_collecting = is_collecting(state);
    if !is_collecting {
        return Ok(());
    }
    let answer = answer.copy(state.alloc())?;
    let coordinator = state.take_coordinator();
    let Some(mut collect) = coordinator.into_collect() else {
        drop(answer);
        return Ok(());
    };
    let Ok(got) = collect.take(k, answer) else {
        drop(collect);
        return Err(NoMemory);
    };
    go_on(state, k, collect, got)
}

/// Acts on the outcome of a page, the last one from replica `k`: asks for the next page, waits, proposes the decision,
/// or gives the collection up. `NoMemory` if memory runs out.
pub(crate) fn go_on(
    state: &mut ReplicaState,
    k: u32,
    collect: Collect,
    got: PageOutcome,
) -> Result<(), NoMemory>
    requires below { k < 15 }
    requires spelt { FitsGot got }
    ensures { IfOk result (λ _. WhereGathering state.old collect (λ x ms pages. CanGoOn k pages got x → ReplicaStands state.new (on_got ms pages got (noting (CoordinatorOnPaper.Collecting ms pages) x)))) }
{
    match got {
        PageOutcome::Stranger => {
            state.set_coordinator(Coordinator::collecting(collect));
            Ok(())
        }
        PageOutcome::More { .. } => {
            state.set_coordinator(Coordinator::collecting(collect));
            ask_page(state, k)
        }
        PageOutcome::Kept => {
            state.set_coordinator(Coordinator::collecting(collect));
            Ok(())
        }
        PageOutcome::Complete(decision) => {
            drop(collect);
            begin_proposing(state, decision, NO_BALLOT)
        }
        PageOutcome::TooMany { count, bytes } => {
            drop(collect);
            state.refuse_collection(count, bytes)?;
            state.set_coordinator(Coordinator::quiet());
            Ok(())
        }
    }
}

/// Asks each other counted replica whose report is not whole for its next page, if a collection is in progress.
/// `NoMemory` if memory runs out.
pub fn send_collect(state: &mut ReplicaState) -> Result<(), NoMemory>
    ensures { IfOk result (λ _. WhereCollecting state.old (λ x ms pages. ReplicaStands state.new (rules.send_collect pages x))) }
{
    let others = state.others()?;
    for k in &others {
        ask_missing(state, *k)?;
    }
    Ok(())
}

/// Asks replica `k` for its next page, if a collection is in progress and its report is not whole.
fn ask_missing(state: &mut ReplicaState, k: u32) -> Result<(), NoMemory>
    requires { k < 15 }
    ensures { IfOk result (λ _. WhereCollecting state.old (λ x ms pages. ReplicaStands state.new (ask_missing pages x k))) }
{
    let is_whole = state.coordinator().is_whole(k);
    if is_whole {
        return Ok(());
    }
    ask_page(state, k)
}

/// Asks replica `k` for its next page, if a collection is in progress.
fn ask_page(state: &mut ReplicaState, k: u32) -> Result<(), NoMemory>
    requires { k < 15 }
    ensures { IfOk result (λ _. WhereCollecting state.old (λ x ms pages. ReplicaStands state.new (rules.ask_page pages x k))) }
{
    let epoch = state.known();
    let after = state.coordinator().cursor(k);
    let control = Control::Suspend { epoch, after };
    tell(state, k, control)
}

/// Returns whether a collection is in progress.
fn is_collecting(state: &ReplicaState) -> bool
    ensures { (x : Draft) → ReplicaStands state.now x → result ≡ is_collecting x.replica.coordinator }
{
    match state.coordinator().stage() {
        Stage::Collecting => true,
        _ => false,
    }
}
