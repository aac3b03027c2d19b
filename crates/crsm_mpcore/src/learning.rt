//! Transfer of executed values from one replica to another.

ghost use Rattle.std.specs.Prelude.{◌≡◌, Some, slice_get};
ghost use Rattle.crsm_mpspec.specs.Draft as drafts;
ghost use Rattle.crsm_mpspec.specs.Log.{executed};
ghost use Rattle.crsm_mpspec.specs.Step as steps;
ghost use Rattle.crsm_mpspec.specs.Types.{Value};
ghost use Rattle.crsm_mpspec.specs.declared.message.MpMessage.{MpMessage as Message};
ghost use Rattle.crsm_mpreplica.specs.State.{Makes, MakesWhere};

use crsm_base::{MAX_SENT_AGAIN, NoMemory};
use crsm_mpreplica::MpReplica;
use crsm_mpspec::MpMessage;

/// Handles a replica's request for executed values from a slot on: sends the first of them.
pub(crate) fn on_ask(state: &mut MpReplica, from: u32, start: u64) -> Result<(), NoMemory>
    ensures { Makes (steps.on_ask from start) state.old result state.new }
{
    let end = start
        .saturating_add(u64::from(MAX_SENT_AGAIN))
        .min(state.ledger().executed_len());
    for slot in start..end {
        teach(state, from, slot)?;
    }
    Ok(())
}

/// Sends a replica the value of an executed slot.
fn teach(state: &mut MpReplica, to: u32, slot: u64) -> Result<(), NoMemory>
    ensures { (v : Value) → MakesWhere (λ x. slice_get (executed x.replica.log) slot ≡ Some v) (λ x. drafts.send (Message.Learn slot v) x to) state.old result state.new }
{
    let Some(executed) = state.ledger().executed(slot) else {
        // Only executed slots are passed.
        return Ok(());
    };
    let value = executed.share()?;
    state.send(to, MpMessage::Learn { slot, value })?;
    Ok(())
}
