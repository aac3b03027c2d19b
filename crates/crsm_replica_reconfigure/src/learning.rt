//! Learning of a decision, and entering of its epoch.

ghost use Rattle.std.specs.Prelude.{◌≡◌, ◌<◌, ◌&&◌, nat_lt, nat_le, true, drop, IfOk};
ghost use Rattle.crsm_base.specs.declared.Rec.{Rec as RecOnPaper};
ghost use Rattle.crsm_base.specs.Spelling.{FitsDecision, FitsEntries};
ghost use Rattle.crsm_spec.specs.Draft.{keep};
ghost use Rattle.crsm_spec.specs.Coordinate.{adopt_tail, advance, learn};
ghost use Rattle.crsm_spec.specs.Controls.{on_decide, retrieve_base};
ghost use Rattle.crsm_replica.specs.Replica.{Makes, MakesFitting};
ghost use Rattle.crsm_replica_reconfigure.specs.Rules.{Follows, MakesWhere};

use crate::tails::tail_goes_on;
use crsm_base::{Decision, Entries, Entry, NoMemory, Rec};
use crsm_replica::{ReplicaState, states_are_sound};
use std::alloc::Global;

/// Learns a decision from replica `k` if it is of a later epoch. `NoMemory` if memory runs out.
pub fn on_decide(state: &mut ReplicaState, k: u32, decision: &Decision) -> Result<(), NoMemory>
    requires from { k < 15 }
    requires spelt { FitsDecision decision.now }
    ensures { Follows (on_decide k decision.now) state.old result state.new }
{
    states_are_sound();
    let known = state.known();
    if decision.epoch <= known {
        return Ok(());
    }
    let fits = learn(state, decision)?;
    if !fits {
        return Ok(());
    }
    retrieve_base(state, k)
}

/// Learns a decision. `false` if its records do not fit, `NoMemory` if memory runs out; with `false` the state is
/// unchanged.
pub fn learn(state: &mut ReplicaState, decision: &Decision) -> Result<bool, NoMemory>
    requires { FitsDecision decision.now }
    ensures { MakesFitting (learn decision.now) state.old result state.new }
{
    states_are_sound();
    let goes_on = tail_goes_on(state, decision)?;
    if !goes_on {
        return Ok(false);
    }
    let fits = state.learn_decision(decision)?;
    if !fits {
        return Ok(false);
    }
    advance(state)?;
    Ok(true)
}

/// Executes the rest of the known decision's tail once its base is executed, and enters the epoch, each if its records
/// fit. `NoMemory` if memory runs out.
pub fn advance(state: &mut ReplicaState) -> Result<(), NoMemory>
    ensures { MakesWhere (λ x. (adopt_tail x).fitting ≡ true) advance state.old result state.new }
{
    adopt_tail(state)?;
    state.enter()
}

fn adopt_tail(state: &mut ReplicaState) -> Result<(), NoMemory>
    ensures { MakesWhere (λ x. (adopt_tail x).fitting ≡ true) adopt_tail state.old result state.new }
{
    states_are_sound();
    let Some(decision) = state.decision()? else {
        return Ok(());
    };
    let place = state.executed_len();
    if !is_left(decision.base_len, place, state.start()) {
        drop(decision);
        return Ok(());
    }
    let rest = behind(decision.tail.as_slice(), place - decision.base_len);
    let Ok(_) = adopt(state, place, rest) else {
        drop(decision);
        return Err(NoMemory);
    };
    drop(decision);
    Ok(())
}

/// Returns whether the base is executed, and the tail, which ends at index `end`, is not.
fn is_left(base_len: u64, place: u64, end: u64) -> bool
    ensures { result ≡ (nat_le base_len place && nat_lt place end) }
{
    base_len <= place && place < end
}

/// Executes these entries, whose first one has the index `place`. `false` if that does not fit, `NoMemory` if memory
/// runs out; with `false` the state is unchanged.
pub fn adopt(state: &mut ReplicaState, place: u64, entries: &[Entry]) -> Result<bool, NoMemory>
    requires { FitsEntries entries.now }
    ensures { MakesFitting (keep (RecOnPaper.Adopt place entries.now)) state.old result state.new }
{
    let entries = copied(state.alloc(), entries)?;
    let rec = Rec::Adopt { place, entries };
    state.keep(rec)
}

/// Returns the entries after the first `count`.
fn behind(entries: &[Entry], count: u64) -> &[Entry]
    ensures { result.now ≡ drop count entries.now }
{
    let count = count as usize;
    if count >= entries.len() {
        &entries[entries.len()..]
    } else {
        &entries[count..]
    }
}

/// Returns a copy of the entries.
fn copied(alloc: Global, entries: &[Entry]) -> Result<Entries, NoMemory>
    ensures { IfOk result (λ copy. copy ≡ entries.now) }
{
    let mut copy = Entries::new(alloc);
    for item in entries {
        copy.push(item.copy(alloc)?)?;
    }
    Ok(copy)
}

/// Asks replica `k` for the missing entries below the base.
fn retrieve_base(state: &mut ReplicaState, k: u32) -> Result<(), NoMemory>
    requires { k < 15 }
    ensures { Makes (retrieve_base k) state.old result state.new }
{
    let done = state.executed_len();
    let base_len = state.base_len();
    if done < base_len {
        return state.send_retrieve(k);
    }
    Ok(())
}
