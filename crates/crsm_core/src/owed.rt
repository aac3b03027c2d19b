//! Sending of pending acknowledgements.

ghost use Rattle.crsm_spec.specs.Frames as frames;
ghost use Rattle.crsm_replica.specs.Replica.{Makes};

use crsm_base::{InEpoch, NoMemory};
use crsm_replica::{ReplicaState, states_are_sound};

/// Sends the pending acknowledgements that are due: while the least stamp's time is below the time that the clock would
/// issue at `reading`. `NoMemory` if memory runs out.
pub(crate) fn owed_oks(state: &mut ReplicaState, reading: u64) -> Result<(), NoMemory>
    ensures { Makes (frames.owed_oks reading) state.old result state.new }
{
    states_are_sound();
    if !state.is_active() {
        return Ok(());
    }
    for _paid in 0..state.owed_len() {
        let Some(stamp) = state.first_owed() else {
            return Ok(());
        };
        let Some(time) = state.would(reading) else {
            return Ok(());
        };
        if stamp.time >= time {
            return Ok(());
        }
        state.push_at(time, InEpoch::PrepareOk { stamp, at: time })?;
        state.paid()?;
    }
    Ok(())
}
