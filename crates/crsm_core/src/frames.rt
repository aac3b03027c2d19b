//! Frames on the numbered links, and their acknowledgements.

ghost use Rattle.std.specs.Prelude.{◌≡◌, ◌≢◌, ◌<◌, ◌&&◌, IfOk};
ghost use Rattle.crsm_base.specs.Messages.{FitsPayload};
ghost use Rattle.crsm_base.specs.Spelling.{FitsEntry};
ghost use Rattle.crsm_spec.specs.Types.{InEpoch as Payload};
ghost use Rattle.crsm_spec.specs.Lists.{has};
ghost use Rattle.crsm_spec.specs.Log.{active};
ghost use Rattle.crsm_spec.specs.Replica.{members_of, latest_from};
ghost use Rattle.crsm_spec.specs.Draft.{Draft};
ghost use Rattle.crsm_spec.specs.Frames as frames;
ghost use Rattle.crsm_spec.specs.Step.{if_fitting};
ghost use Rattle.crsm_replica.specs.Replica.{ReplicaStands, WhereLater};
ghost use Rattle.crsm_replica_reconfigure.specs.Receiving.{FollowsFrom};
ghost use Rattle.crsm_replica_reconfigure.specs.Rules.{Follows};

use crate::records::log_entry;
use crsm_base::{Entry, InEpoch, NoMemory};
use crsm_replica::{ReplicaState, states_are_sound};

/// Handles a frame of an epoch from replica `k`. `NoMemory` if memory runs out.
pub(crate) fn on_frame(
    state: &mut ReplicaState,
    k: u32,
    epoch: u64,
    seq: u64,
    payload: &InEpoch,
) -> Result<(), NoMemory>
    requires from { k < 15 }
    requires spelt { FitsPayload payload.now }
    ensures { FollowsFrom k (frames.on_frame k epoch seq payload.now) state.old result state.new }
{
    states_are_sound();
    let known = state.known();
    if epoch < known {
        return state.send_decision(k);
    }
    if known < epoch {
        return state.send_retrieve(k);
    }
    if !takes_part_with(state, k) {
        return Ok(());
    }
    if seq != state.next_from(k) {
        return state.ack(k);
    }
    if is_odd(state, k, payload) {
        return Ok(());
    }
    take_frame(state, k, payload)
}

/// Returns whether the replica is active, and `k` is a member of its epoch.
fn takes_part_with(state: &ReplicaState, k: u32) -> bool
    ensures { (x : Draft) → ReplicaStands state.now x → result ≡ active x.replica.log && has (members_of x.replica) k }
{
    if state.is_active() {
        state.is_member(k)
    } else {
        false
    }
}

/// Returns the sender's time in a payload.
fn time_of(payload: &InEpoch) -> u64
    ensures { result ≡ frames.time_of payload.now }
{
    match payload {
        InEpoch::Prepare { entry } => entry.stamp.time,
        InEpoch::PrepareOk { stamp: _, at } => *at,
        InEpoch::ClockTime { at } => *at,
    }
}

/// Returns whether the next frame in sequence is invalid: a time no later than k's last, or a payload that `k` may not
/// send.
fn is_odd(state: &ReplicaState, k: u32, payload: &InEpoch) -> bool
    requires { k < 15 }
    ensures { (x : Draft) → ReplicaStands state.now x → k ≢ x.replica.me → result ≡ frames.is_odd_frame x.replica k payload.now }
{
    if time_of(payload) <= state.latest_from(k) {
        return true;
    }
    is_wrong(state, k, payload)
}

/// Returns whether `k` may not send this payload.
fn is_wrong(state: &ReplicaState, k: u32, payload: &InEpoch) -> bool
    ensures { (x : Draft) → ReplicaStands state.now x → result ≡ frames.is_wrong x.replica k payload.now }
{
    match payload {
        InEpoch::Prepare { entry } => {
            if entry.epoch != state.known() {
                return true;
            }
            entry.stamp.origin != k
        }
        InEpoch::PrepareOk { stamp, at: _ } => !state.is_member(stamp.origin),
        InEpoch::ClockTime { at: _ } => false,
    }
}

/// Takes the next frame of replica `k`: records its time, acknowledges it, and acts on its payload.
fn take_frame(state: &mut ReplicaState, k: u32, payload: &InEpoch) -> Result<(), NoMemory>
    requires from { k < 15 }
    requires spelt { FitsPayload payload.now }
    ensures { IfOk result (λ _. WhereLater state.old k (frames.time_of payload.now) (λ x. ReplicaStands state.new (if_fitting x (frames.take_frame k payload.now x)))) }
{
    states_are_sound();
    match payload {
        InEpoch::Prepare { entry } => take_prepare(state, k, entry),
        InEpoch::PrepareOk { stamp, at } => {
            state.take_next(k, *at)?;
            state.ack(k)?;
            state.count_vote(*stamp, k)
        }
        InEpoch::ClockTime { at } => {
            state.take_next(k, *at)?;
            state.ack(k)
        }
    }
}

/// Takes a frame with an entry. Its record comes first, so that nothing has to be undone if it does not fit.
fn take_prepare(state: &mut ReplicaState, k: u32, entry: &Entry) -> Result<(), NoMemory>
    requires from { k < 15 }
    requires spelt { FitsEntry entry.now }
    ensures { IfOk result (λ _. WhereLater state.old k entry.now.stamp.time (λ x. ReplicaStands state.new (if_fitting x (frames.take_frame k (Payload.Prepare entry.now) x)))) }
{
    let me = state.me();
    if !log_entry(state, entry)? {
        return Ok(());
    }
    state.take_next(k, entry.stamp.time)?;
    state.ack(k)?;
    state.count_vote(entry.stamp, k)?;
    state.count_vote(entry.stamp, me)?;
    state.owe(entry.stamp)
}

/// Handles an acknowledgement of an epoch from replica `k`: the frames below `next` were received. `NoMemory` if memory
/// runs out.
pub(crate) fn on_ack(
    state: &mut ReplicaState,
    k: u32,
    epoch: u64,
    next: u64,
) -> Result<(), NoMemory>
    requires { k < 15 }
    ensures { Follows (frames.on_ack k epoch next) state.old result state.new }
{
    states_are_sound();
    if epoch != state.known() {
        return Ok(());
    }
    if !takes_part_with(state, k) {
        return Ok(());
    }
    if next > state.pushed_to(k) {
        return Ok(());
    }
    state.acked(k, next)
}
