//! The rule for ticks.

ghost use Rattle.crsm_spec.specs.Frames as frames;
ghost use Rattle.crsm_spec.specs.Step as rules;
ghost use Rattle.crsm_replica.specs.Replica.{Makes};
ghost use Rattle.crsm_replica_reconfigure.specs.Rules.{Follows};

use crsm_base::NoMemory;
use crsm_replica::{ReplicaState, states_are_sound};
use crsm_replica_reconfigure::renew_and_ask;

/// Handles a tick: an active replica retransmits frames; any other retries its coordinator's stage and asks all for
/// decisions and executed entries. `NoMemory` if memory runs out.
pub(crate) fn on_tick(state: &mut ReplicaState) -> Result<(), NoMemory>
    ensures { Follows rules.on_tick state.old result state.new }
{
    states_are_sound();
    if state.is_active() {
        return send_again(state);
    }
    renew_and_ask(state)
}

/// Retransmits the first unacknowledged frames of each link.
fn send_again(state: &mut ReplicaState) -> Result<(), NoMemory>
    ensures { Makes frames.send_again state.old result state.new }
{
    let members = state.other_members()?;
    for k in &members {
        state.again_to(*k)?;
    }
    Ok(())
}
