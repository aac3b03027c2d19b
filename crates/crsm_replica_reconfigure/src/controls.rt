//! The rule for each kind of control message.

ghost use Rattle.std.specs.Prelude.{◌<◌};
ghost use Rattle.crsm_base.specs.Messages.{FitsControl};
ghost use Rattle.crsm_spec.specs.Controls as controls;
ghost use Rattle.crsm_replica_reconfigure.specs.Receiving.{FollowsFrom};

use crate::answering::on_p1b;
use crate::collecting::on_suspend_ok;
use crate::counting::{on_p1no, on_p2b};
use crate::learning::on_decide;
use crate::paging::{on_page, on_retrieve};
use crate::promising::{on_p1a, on_p2a};
use crate::suspending::on_suspend;
use crsm_base::{Control, NoMemory};
use crsm_replica::{ReplicaState, states_are_sound};

/// Handles a control message of replica `k`. One whose records would not fit changes nothing. `NoMemory` if memory runs
/// out.
pub fn on_control(state: &mut ReplicaState, k: u32, control: &Control) -> Result<(), NoMemory>
    requires from { k < 15 }
    requires spelt { FitsControl control.now }
    ensures { FollowsFrom k (controls.on_control k control.now) state.old result state.new }
{
    states_are_sound();
    match control {
        Control::Suspend { epoch, after } => on_suspend(state, k, *epoch, *after),
        Control::SuspendOk { .. } => on_suspend_ok(state, k, control),
        Control::P1a { instance, ballot } => on_p1a(state, k, *instance, *ballot),
        Control::P1b {
            instance,
            ballot,
            accepted,
        } => on_p1b(state, k, *instance, *ballot, accepted),
        Control::P1no {
            instance,
            ballot,
            promised,
        } => on_p1no(state, k, *instance, *ballot, *promised),
        Control::P2a {
            instance,
            ballot,
            decision,
        } => on_p2a(state, k, *instance, *ballot, decision),
        Control::P2b { instance, ballot } => on_p2b(state, k, *instance, *ballot),
        Control::Decide { decision } => on_decide(state, k, decision),
        Control::Retrieve { known, from } => on_retrieve(state, k, *known, *from),
        Control::Page { .. } => on_page(state, k, control),
    }
}
