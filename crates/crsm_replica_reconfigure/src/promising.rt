//! The rules of an acceptor: promises and acceptances.

ghost use Rattle.std.specs.Prelude.{◌≡◌, ◌<◌, IfOk};
ghost use Rattle.crsm_base.specs.Order.{ballot_lt, ballot_eq};
ghost use Rattle.crsm_base.specs.Spelling.{FitsBallot, FitsDecision};
ghost use Rattle.crsm_base.specs.declared.Control.{Control as ControlOnPaper};
ghost use Rattle.crsm_base.specs.declared.Rec.{Rec as RecOnPaper};
ghost use Rattle.crsm_spec.specs.Draft.{Draft, keep, send_control};
ghost use Rattle.crsm_spec.specs.Controls.{send_promise, on_p1a, on_p2a};
ghost use Rattle.crsm_replica.specs.Replica.{ReplicaStands, Makes, MakesFitting};
ghost use Rattle.crsm_replica_reconfigure.specs.Rules.{Follows, IsNextOr};

use crate::telling::tell;
use crsm_base::{Ballot, Control, Decision, NoMemory, Rec, ballot_precedes, is_same_ballot};
use crsm_replica::{ReplicaState, states_are_sound};

/// Handles a ballot of replica `k` that asks for a promise. `NoMemory` if memory runs out.
pub fn on_p1a(
    state: &mut ReplicaState,
    k: u32,
    instance: u64,
    ballot: Ballot,
) -> Result<(), NoMemory>
    requires from { k < 15 }
    requires ballot { FitsBallot ballot }
    ensures { Follows (on_p1a k instance ballot) state.old result state.new }
{
    states_are_sound();
    let is_next = if_next(state, k, instance)?;
    if !is_next {
        return Ok(());
    }
    let top = state.promised();
    if ballot_precedes(top, ballot) {
        let fits = promise(state, instance, ballot)?;
        if !fits {
            return Ok(());
        }
        return send_promise(state, k, instance, ballot);
    }
    if is_same_ballot(top, ballot) {
        return send_promise(state, k, instance, ballot);
    }
    refuse(state, k, instance, ballot, top)
}

/// Handles a ballot of replica `k` that proposes a decision. `NoMemory` if memory runs out.
pub fn on_p2a(
    state: &mut ReplicaState,
    k: u32,
    instance: u64,
    ballot: Ballot,
    decision: &Decision,
) -> Result<(), NoMemory>
    requires from { k < 15 }
    requires ballot { FitsBallot ballot }
    requires decision { FitsDecision decision.now }
    ensures { Follows (on_p2a k instance ballot decision.now) state.old result state.new }
{
    states_are_sound();
    let is_next = if_next(state, k, instance)?;
    if !is_next {
        return Ok(());
    }
    let top = state.promised();
    if ballot_precedes(ballot, top) {
        return refuse(state, k, instance, ballot, top);
    }
    let has_accepted = state.has_accepted(ballot);
    if has_accepted {
        return vote(state, k, instance, ballot);
    }
    let done = state.executed_len();
    let base_len = decision.base_len;
    if done < base_len {
        return state.send_retrieve(k);
    }
    let fits = accept(state, instance, ballot, decision)?;
    if !fits {
        return Ok(());
    }
    vote(state, k, instance, ballot)
}

/// Records the promise of a ballot. `false` if the record does not fit, `NoMemory` if memory runs out; with `false` the
/// state is unchanged.
pub fn promise(state: &mut ReplicaState, instance: u64, ballot: Ballot) -> Result<bool, NoMemory>
    requires { FitsBallot ballot }
    ensures { MakesFitting (keep (RecOnPaper.Promise instance ballot)) state.old result state.new }
{
    let rec = Rec::Promise { instance, ballot };
    state.keep(rec)
}

/// Records the acceptance of a decision in this ballot. `false` if the record does not fit, `NoMemory` if memory runs
/// out; with `false` the state is unchanged.
pub fn accept(
    state: &mut ReplicaState,
    instance: u64,
    ballot: Ballot,
    decision: &Decision,
) -> Result<bool, NoMemory>
    requires ballot { FitsBallot ballot }
    requires decision { FitsDecision decision.now }
    ensures { MakesFitting (keep (RecOnPaper.Accept instance ballot decision.now)) state.old result state.new }
{
    let decision = decision.copy(state.alloc())?;
    let rec = Rec::Accept {
        instance,
        ballot,
        decision,
    };
    state.keep(rec)
}

/// Returns whether the instance is the next one. If not, replica `k` is answered.
fn if_next(state: &mut ReplicaState, k: u32, instance: u64) -> Result<bool, NoMemory>
    requires { k < 15 }
    ensures { IfOk result (λ next. (x : Draft) → ReplicaStands state.old x → IsNextOr k instance x next state.new) }
{
    let known = state.known();
    if instance <= known {
        state.send_decision(k)?;
        return Ok(false);
    }
    let before = instance - 1;
    if before > known {
        state.send_retrieve(k)?;
        return Ok(false);
    }
    Ok(true)
}

/// Sends replica `k` the promise of the ballot, with the accepted decision.
fn send_promise(
    state: &mut ReplicaState,
    k: u32,
    instance: u64,
    ballot: Ballot,
) -> Result<(), NoMemory>
    requires to { k < 15 }
    requires ballot { FitsBallot ballot }
    ensures { Makes (send_promise k instance ballot) state.old result state.new }
{
    states_are_sound();
    let accepted = state.accepted()?;
    let control = Control::P1b {
        instance,
        ballot,
        accepted,
    };
    tell(state, k, control)
}

/// Sends replica `k` a refusal: a greater ballot was promised.
fn refuse(
    state: &mut ReplicaState,
    k: u32,
    instance: u64,
    ballot: Ballot,
    promised: Ballot,
) -> Result<(), NoMemory>
    requires to { k < 15 }
    requires ballot { FitsBallot ballot }
    requires promised { FitsBallot promised }
    ensures { Makes (λ x. send_control (ControlOnPaper.P1no instance ballot promised) x k) state.old result state.new }
{
    let control = Control::P1no {
        instance,
        ballot,
        promised,
    };
    tell(state, k, control)
}

/// Sends replica `k` the vote for its ballot's decision.
fn vote(state: &mut ReplicaState, k: u32, instance: u64, ballot: Ballot) -> Result<(), NoMemory>
    requires to { k < 15 }
    requires ballot { FitsBallot ballot }
    ensures { Makes (λ x. send_control (ControlOnPaper.P2b instance ballot) x k) state.old result state.new }
{
    let control = Control::P2b { instance, ballot };
    tell(state, k, control)
}
