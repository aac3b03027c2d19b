//! Suspension of the known epoch.

ghost use Rattle.std.specs.Prelude.{◌≡◌, ◌<◌};
ghost use Rattle.crsm_base.specs.Spelling.{FitsOption, FitsStamp};
ghost use Rattle.crsm_spec.specs.Draft.{Draft, send_control};
ghost use Rattle.crsm_spec.specs.Collect.{suspend_ok};
ghost use Rattle.crsm_spec.specs.Controls.{on_suspend};
ghost use Rattle.crsm_spec.specs.Coordinate.{suspend_once};
ghost use Rattle.crsm_replica.specs.Replica.{Makes, MakesFitting};
ghost use Rattle.crsm_replica_reconfigure.specs.Rules.{Follows};

use crate::telling::tell;
use crsm_base::{NoMemory, Rec, Stamp};
use crsm_replica::{ReplicaState, states_are_sound};
use crsm_suspend::page_of;

/// Handles the request of coordinator `k`, which ends an epoch, for the logged entries above a stamp. `NoMemory` if
/// memory runs out.
pub fn on_suspend(
    state: &mut ReplicaState,
    k: u32,
    epoch: u64,
    after: Option<Stamp>,
) -> Result<(), NoMemory>
    requires from { k < 15 }
    requires after { FitsOption FitsStamp after }
    ensures { Follows (on_suspend k epoch after) state.old result state.new }
{
    states_are_sound();
    let known = state.known();
    if epoch < known {
        return state.send_decision(k);
    }
    if known < epoch {
        return state.send_retrieve(k);
    }
    let fits = suspend_once(state)?;
    if !fits {
        return Ok(());
    }
    send_frozen(state, k, after)
}

/// Suspends the known epoch, unless it is suspended. `false` if the record does not fit, `NoMemory` if memory runs out;
/// with `false` the state is unchanged.
pub fn suspend_once(state: &mut ReplicaState) -> Result<bool, NoMemory>
    ensures { MakesFitting suspend_once state.old result state.new }
{
    states_are_sound();
    let is_suspended = state.is_suspended();
    if is_suspended {
        return Ok(true);
    }
    let epoch = state.known();
    let rec = Rec::Suspend { epoch };
    state.keep(rec)
}

/// Sends replica `k` the first page of the frozen log above a stamp.
fn send_frozen(state: &mut ReplicaState, k: u32, after: Option<Stamp>) -> Result<(), NoMemory>
    requires to { k < 15 }
    requires after { FitsOption FitsStamp after }
    ensures { Makes (λ x. send_control (suspend_ok x.replica.log after) x k) state.old result state.new }
{
    let control = page_of(state.alloc(), state.ledger(), after)?;
    tell(state, k, control)
}
