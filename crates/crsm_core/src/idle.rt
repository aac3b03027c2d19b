//! The rule by which an idle replica sends its time.

ghost use Rattle.std.specs.Prelude.{◌≡◌};
ghost use Rattle.crsm_spec.specs.Draft.{Draft};
ghost use Rattle.crsm_spec.specs.Frames as frames;
ghost use Rattle.crsm_replica.specs.Replica.{ReplicaStands, Makes};

use crsm_base::{IDLE_UNITS, InEpoch, NoMemory};
use crsm_replica::ReplicaState;

/// Sends the replica's time at a tick if it has been idle. `NoMemory` if memory runs out.
pub(crate) fn idle(state: &mut ReplicaState, reading: u64) -> Result<(), NoMemory>
    ensures { Makes (frames.idle reading) state.old result state.new }
{
    if !state.is_active() {
        return Ok(());
    }
    if !is_idle(state, reading) {
        return Ok(());
    }
    let Some(time) = state.would(reading) else {
        return Ok(());
    };
    state.push_at(time, InEpoch::ClockTime { at: time })
}

/// Returns whether the reading is at least `IDLE_UNITS` above the time issued last, and no link is congested.
fn is_idle(state: &ReplicaState, reading: u64) -> bool
    ensures { (x : Draft) → ReplicaStands state.now x → result ≡ frames.is_idle x.replica reading }
{
    let last = state.last_issued();
    if reading < IDLE_UNITS {
        return false;
    }
    if reading - IDLE_UNITS < last {
        return false;
    }
    if last == u64::MAX {
        return false;
    }
    !state.is_congested()
}
