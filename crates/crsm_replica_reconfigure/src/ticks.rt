//! The tick of a replica that does not take part in its epoch.

ghost use Rattle.crsm_spec.specs.Step as rules;
ghost use Rattle.crsm_replica.specs.Replica.{MakesFitting};
ghost use Rattle.crsm_replica_reconfigure.specs.Rules.{Follows};

use crate::collecting::send_collect;
use crate::renewing::{renew_over, renew_proposal};
use crate::sending::{ask_all, send_ask};
use crsm_base::NoMemory;
use crsm_replica::{ReplicaState, states_are_sound};
use crsm_replica_coordinator::Stage;

/// Retries the coordinator's stage, and asks all for decisions and executed entries. If the records for that would not
/// fit, nothing changes. `NoMemory` if memory runs out.
pub fn renew_and_ask(state: &mut ReplicaState) -> Result<(), NoMemory>
    ensures { Follows (λ x. rules.ask_all (rules.renew x.replica.coordinator x)) state.old result state.new }
{
    let fits = renew(state)?;
    if !fits {
        return Ok(());
    }
    ask_all(state)
}

/// Retries the coordinator's stage. `false` if its records do not fit; the state is then unchanged.
fn renew(state: &mut ReplicaState) -> Result<bool, NoMemory>
    ensures { MakesFitting (λ x. rules.renew x.replica.coordinator x) state.old result state.new }
{
    states_are_sound();
    match state.coordinator().stage() {
        Stage::Idle => Ok(true),
        Stage::Collecting => {
            send_collect(state)?;
            Ok(true)
        }
        Stage::Preparing => {
            send_ask(state)?;
            Ok(true)
        }
        Stage::Proposing => renew_proposal(state),
        Stage::Preempted => renew_over(state),
    }
}
