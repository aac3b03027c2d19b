//! Handling of parts of control messages.

ghost use Rattle.std.specs.Prelude.{◌≡◌, ◌<◌, true};
ghost use Rattle.crsm_segment.specs.Taking.{is_sized, piece};
ghost use Rattle.crsm_base.specs.Messages.{FitsControl};
ghost use Rattle.crsm_spec.specs.Controls as controls;
ghost use Rattle.crsm_spec.specs.Draft.{Draft};
ghost use Rattle.crsm_spec.specs.Step as rules;
ghost use Rattle.crsm_base.specs.MessageReading.{control_of};
ghost use Rattle.crsm_replica_reconfigure.specs.Receiving.{FollowsFrom};

use crsm_base::{Control, NoMemory};
use crsm_replica::{ReplicaState, states_are_sound};
use crsm_replica_reconfigure::on_control;
use crsm_wire::{WireError, read_control};

/// The heading of a part of a control message.
#[derive(Clone, Copy)]
pub(crate) struct PartHead {
    pub boot: u64,
    pub number: u64,
    pub index: u32,
    pub count: u32,
}

/// Takes a part, and handles the message that it completes. A message whose records would not fit is ignored, but its
/// part is kept. `NoMemory` if memory runs out.
pub(crate) fn on_part(
    state: &mut ReplicaState,
    from: u32,
    heading: PartHead,
    bytes: &[u8],
) -> Result<(), NoMemory>
    requires from { from < 15 }
    requires sized { is_sized (piece from heading.boot heading.number heading.index heading.count bytes.now) ≡ true }
    ensures { FollowsFrom from (rules.on_part (piece from heading.boot heading.number heading.index heading.count bytes.now)) state.old result state.new }
{
    states_are_sound();
    let whole = state.take_part(
        from,
        heading.boot,
        heading.number,
        heading.index,
        heading.count,
        bytes,
    )?;
    let Some(message) = whole else {
        return Ok(());
    };
    on_message(state, from, message.as_slice())
}

/// Handles the bytes of a whole message. Bytes that are not a control message change nothing.
fn on_message(state: &mut ReplicaState, from: u32, bytes: &[u8]) -> Result<(), NoMemory>
    requires { from < 15 }
    ensures { FollowsFrom from (rules.on_whole_message from (control_of bytes.now)) state.old result state.new }
{
    match read_control(state.alloc(), bytes) {
        Ok(control) => handle(state, from, control),
        Err(WireError::NotOne) => Ok(()),
        Err(WireError::NoMemory) => Err(NoMemory),
    }
}

/// Handles a control message.
fn handle(state: &mut ReplicaState, from: u32, control: Control) -> Result<(), NoMemory>
    requires from { from < 15 }
    requires spelt { FitsControl control }
    ensures { FollowsFrom from (controls.on_control from control) state.old result state.new }
{
    let handled = on_control(state, from, &control);
    drop(control);
    handled
}
