//! The rule that executes ready entries.

ghost use Rattle.crsm_spec.specs.Clients as clients;
ghost use Rattle.crsm_replica.specs.Replica.{Makes};

use crate::records::commit;
use crsm_base::NoMemory;
use crsm_replica::{ReplicaState, commits_go_on, states_are_sound};

/// Executes all ready entries while the replica is active. `NoMemory` if memory runs out.
pub(crate) fn commits(state: &mut ReplicaState) -> Result<(), NoMemory>
    ensures { Makes clients.commits state.old result state.new }
{
    states_are_sound();
    commits_go_on();
    if !state.is_active() {
        return Ok(());
    }
    // Mostly no entry is ready, and then nothing has to be counted.
    let next = state.ready()?;
    if next.is_none() {
        return Ok(());
    }
    for _done in 0..state.unexecuted_len() {
        let Some(stamp) = state.ready()? else {
            return Ok(());
        };
        commit(state, stamp)?;
    }
    Ok(())
}
