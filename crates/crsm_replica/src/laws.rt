//! Laws of every state of a replica in memory.

ghost use Rattle.std.specs.Prelude.{◌≡◌, List, ◌∷◌};
ghost use Rattle.crsm_spec.specs.Types.{Entry, Rec};
ghost use Rattle.crsm_spec.specs.Log.{unexecuted};
ghost use Rattle.crsm_replica.specs.declared.state.ReplicaState.{ReplicaState};
ghost use Rattle.crsm_spec.specs.Draft.{Draft};
ghost use Rattle.crsm_replica.specs.Sound.{IsSound};
ghost use Rattle.crsm_replica.specs.Replica.{ReplicaStands};

/// States that every state stands for a sound one: all that it contains has an encoding. It runs no code.
#[tactic(auto, unfolding(crate::specs::Replica::ReplicaStands))]
pub fn states_are_sound()
    ensures { (state : ReplicaState) (x : Draft) → ReplicaStands state x → IsSound x }
{}

/// States that once the first unexecuted entry is executed, the ones after it are the unexecuted ones. It runs no code.
#[tactic(auto, unfolding(crate::specs::Replica::ReplicaStands))]
pub fn commits_go_on()
    ensures { (state : ReplicaState) (x : Draft) (e : Entry) (es : List Entry) → ReplicaStands state x → unexecuted x.replica.log ≡ e ∷ es →
        unexecuted (Rec.Commit e.stamp ∷ x.replica.log) ≡ es }
{}
