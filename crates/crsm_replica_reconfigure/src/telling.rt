//! Control messages that are sent and not needed any more.

ghost use Rattle.std.specs.Prelude.{◌<◌, All};
ghost use Rattle.crsm_base.specs.Messages.{FitsControl};
ghost use Rattle.crsm_spec.specs.Draft.{send_control, send_to_all, send_to_each};
ghost use Rattle.crsm_replica.specs.Replica.{Makes};

use crsm_base::{Control, NoMemory};
use crsm_replica::ReplicaState;

/// Sends replica `k` a control message. `NoMemory` if memory runs out.
pub fn tell(state: &mut ReplicaState, k: u32, control: Control) -> Result<(), NoMemory>
    requires to { k < 15 }
    requires spelt { FitsControl control }
    ensures { Makes (λ x. send_control control x k) state.old result state.new }
{
    let sent = state.send_control(k, &control);
    drop(control);
    sent
}

/// Sends a control message to each of these replicas. `NoMemory` if memory runs out.
pub fn tell_each(
    state: &mut ReplicaState,
    replicas: Vec<u32>,
    control: Control,
) -> Result<(), NoMemory>
    requires to { All (λ k. k < 15) replicas.items }
    requires spelt { FitsControl control }
    ensures { Makes (send_to_each replicas.items control) state.old result state.new }
{
    let sent = state.send_to_each(&replicas, &control);
    drop(control);
    sent
}

/// Sends a control message to each other counted replica. `NoMemory` if memory runs out.
pub fn tell_all(state: &mut ReplicaState, control: Control) -> Result<(), NoMemory>
    requires { FitsControl control }
    ensures { Makes (send_to_all control) state.old result state.new }
{
    let sent = state.send_to_all(&control);
    drop(control);
    sent
}
