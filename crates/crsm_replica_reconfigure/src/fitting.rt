//! The test whether the records of a proposer's own acceptance fit.

ghost use Rattle.std.specs.Prelude.{◌≡◌, IfOk};
ghost use Rattle.crsm_base.specs.declared.Rec.{Rec as RecOnPaper};
ghost use Rattle.crsm_spec.specs.Fits.{fits};
ghost use Rattle.crsm_spec.specs.Draft.{Draft};
ghost use Rattle.crsm_spec.specs.Coordinate.{accept_own, instance};
ghost use Rattle.crsm_replica.specs.Replica.{ReplicaStands};
ghost use Rattle.crsm_replica_reconfigure.specs.Stages.{WhereOwnVote};

use crate::proposing::is_due;
use crate::tails::tail_goes_on;
use crsm_base::{Ballot, Decision, NoMemory, Rec, ballot_precedes};
use crsm_replica::{ReplicaState, states_are_sound};

/// Returns whether the records of the replica's own acceptance of this proposal would fit, whether it makes the
/// decision chosen or not. `NoMemory` if memory runs out.
pub fn fits_own(
    state: &ReplicaState,
    ballot: Ballot,
    value: &Decision,
    is_chosen: bool,
) -> Result<bool, NoMemory>
    ensures { IfOk result (λ fit. WhereOwnVote state.now value.now is_chosen (λ x own acceptors. fit ≡ (accept_own ballot own value.now acceptors x).fitting)) }
{
    states_are_sound();
    let top = state.promised();
    if ballot_precedes(ballot, top) {
        return Ok(true);
    }
    let is_due = is_due(state, ballot, value);
    if !is_due {
        return Ok(true);
    }
    let accepts = would_accept(state, ballot, value)?;
    if !accepts {
        return Ok(false);
    }
    if !is_chosen {
        return Ok(true);
    }
    let goes_on = tail_goes_on(state, value)?;
    let decides = would_decide(state, value)?;
    Ok(decides & goes_on)
}

/// Returns whether the acceptance of this proposal would fit. It does only for the epoch of its decision.
fn would_accept(state: &ReplicaState, ballot: Ballot, value: &Decision) -> Result<bool, NoMemory>
    ensures { IfOk result (λ fit. (x : Draft) → ReplicaStands state.now x → fit ≡ fits x.replica.me x.replica.n x.replica.log (RecOnPaper.Accept (instance x) ballot value.now)) }
{
    let decision = value.copy(state.alloc())?;
    let rec = Rec::Accept {
        instance: value.epoch,
        ballot,
        decision,
    };
    let fits = state.ledger().fits(&rec);
    drop(rec);
    Ok(fits)
}

fn would_decide(state: &ReplicaState, value: &Decision) -> Result<bool, NoMemory>
    ensures { IfOk result (λ fit. (x : Draft) → ReplicaStands state.now x → fit ≡ fits x.replica.me x.replica.n x.replica.log (RecOnPaper.Decide value.now)) }
{
    let decision = value.copy(state.alloc())?;
    let rec = Rec::Decide { decision };
    let fits = state.ledger().fits(&rec);
    drop(rec);
    Ok(fits)
}
