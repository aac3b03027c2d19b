//! A sequence of Paxos instances.

ghost use Rattle.std.specs.Prelude.{◌≡◌, ℕ, List, [], ◌∷◌};
ghost use Rattle.crsm_spec.specs.Epochs.{Event};
ghost use Rattle.crsm_safety.specs.Laws.{IsDecided};

use crate::one_instance::{choice, held_vote, one_more_step, proposer, repeated_answer};

/// No two decisions of one instance differ, over any network, and whichever replicas lose their memory.
pub fn instances_agree<D>()
    ensures { (spec_of : ℕ → List ℕ) (events : List (Event D)) (i : ℕ) (d e : D) → IsDecided spec_of events i d → IsDecided spec_of events i e → d ≡ e }
{
    choice::<D>();
    repeated_answer::<D>();
    held_vote::<D>();
    one_more_step::<D>();
    proposer::<D>();
}

/// A cluster of one replica can decide anything, so the premises of `instances_agree` can be met.
pub fn possible_decision<D>()
    ensures { (d : D) → (events : List (Event D)) × IsDecided (λ _. 0 ∷ []) events 1 d }
{}
