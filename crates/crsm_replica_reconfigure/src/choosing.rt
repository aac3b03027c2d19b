//! The choice of a decision.

ghost use Rattle.std.specs.Prelude.{◌≡◌, ◌<◌, ◌==◌, ◌&&◌, ◌||◌, not, All, IfOk};
ghost use Rattle.crsm_base.specs.Spelling.{FitsDecision};
ghost use Rattle.crsm_base.specs.declared.Control.{Control as ControlOnPaper};
ghost use Rattle.crsm_spec.specs.Draft.{send_to_each};
ghost use Rattle.crsm_spec.specs.Lists.{has, numbers_below};
ghost use Rattle.crsm_spec.specs.Coordinate.{on_chosen};
ghost use Rattle.crsm_replica.specs.Replica.{Makes, MakesFitting};
ghost use Rattle.crsm_replica_reconfigure.specs.Stages.{others_of_both};

use crate::learning::learn;
use crate::telling::tell_each;
use crsm_base::{Control, Decision, MAX_REPLICAS, Members, NoMemory, first_replicas, is_among};
use crsm_replica::ReplicaState;
use std::alloc::Global;

/// Learns a chosen decision and sends it to all counted replicas of the old epoch and of the new one. `false` if its
/// records do not fit, `NoMemory` if memory runs out; with `false` the state is unchanged.
pub fn choose(state: &mut ReplicaState, decision: &Decision) -> Result<bool, NoMemory>
    requires { FitsDecision decision.now }
    ensures { MakesFitting (on_chosen decision.now) state.old result state.new }
{
    let old = state.spec()?;
    let me = state.me();
    let fits = learn(state, decision)?;
    if !fits {
        return Ok(false);
    }
    let new = state.spec()?;
    send_both(state, &old, &new, me, decision)?;
    Ok(true)
}

/// Sends the decision to the replicas of both sets but this one.
fn send_both(
    state: &mut ReplicaState,
    old: &Members,
    new: &Members,
    me: u32,
    decision: &Decision,
) -> Result<(), NoMemory>
    requires { FitsDecision decision.now }
    ensures { Makes (send_to_each (others_of_both old.now new.now me) (ControlOnPaper.Decide decision.now)) state.old result state.new }
{
    let replicas = both_specs(state.alloc(), old, new, me)?;
    let decision = decision.copy(state.alloc())?;
    let control = Control::Decide { decision };
    tell_each(state, replicas, control)
}

/// Returns the replicas of both sets without `me`, in ascending order.
fn both_specs(alloc: Global, old: &Members, new: &Members, me: u32) -> Result<Vec<u32>, NoMemory>
    ensures value { IfOk result (λ ks. ks.items ≡ others_of_both old.now new.now me) }
    ensures below { IfOk result (λ ks. All (λ k. k < 15) ks.items) }
{
    let mut both = Vec::new(alloc);
    for k in all_replicas() {
        if is_other(old, new, me, *k) {
            both.push(*k)?;
        }
    }
    Ok(both)
}

fn is_other(old: &Members, new: &Members, me: u32, k: u32) -> bool
    ensures { result ≡ ((has old.now k || has new.now k) && not (k == me)) }
{
    let is_of_either = is_among(old.as_slice(), k) | is_among(new.as_slice(), k);
    is_of_either & (k != me)
}

/// Returns the numbers of all possible replicas.
#[tactic(auto, unfolding(crsm_base::specs::Replicas::numbers_below))]
fn all_replicas() -> &'static [u32]
    ensures value { result.now ≡ numbers_below 15 }
    ensures below { All (λ k. k < 15) result.now }
{
    first_replicas(MAX_REPLICAS)
}
