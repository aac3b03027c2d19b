//! One step: the rule of the input, and the replies.

ghost use Rattle.std.specs.Prelude.{IfOk};
ghost use Rattle.crsm_mpspec.specs.Draft.{begun};
ghost use Rattle.crsm_mpspec.specs.Replica.{Replica};
ghost use Rattle.crsm_mpspec.specs.Step as steps;
ghost use Rattle.crsm_mpreplica.specs.Fitting.{FitsInput, FitsMessage};
ghost use Rattle.crsm_mpreplica.specs.State.{MakesWhere, MpReplicaStands};

use crate::deciding::{on_acc, on_accd};
use crate::electing::{on_lead, on_prep, on_prom};
use crate::learning::on_ask;
use crate::replies::replies;
use crate::requests::on_request;
use crate::ticks::on_tick;
use crsm_base::NoMemory;
use crsm_mpreplica::MpReplica;
use crsm_mpspec::{MpInput, MpMessage};

/// Runs one step: the rule of the input, and the replies to the clients whose slots are then executed.
#[tactic(auto, unfolding(crsm_mpspec::specs::Step::step))]
pub(crate) fn step(state: &mut MpReplica, input: &MpInput, from: u32) -> Result<(), NoMemory>
    ensures { IfOk result (λ _. (r : Replica) → FitsInput input.now → MpReplicaStands state.old (begun r) → MpReplicaStands state.new (steps.step r input.now from)) }
{
    on_input(state, input, from)?;
    replies(state)?;
    Ok(())
}

/// Applies the rule of an input.
#[tactic(auto, unfolding(crsm_mpspec::specs::Step::on_input))]
fn on_input(state: &mut MpReplica, input: &MpInput, from: u32) -> Result<(), NoMemory>
    ensures { MakesWhere (λ x. FitsInput input.now) (steps.on_input input.now from) state.old result state.new }
{
    match input {
        MpInput::Request { command } => {
            on_request(state, command)?;
            Ok(())
        }
        MpInput::Message { message } => {
            on_message(state, from, message)?;
            Ok(())
        }
        MpInput::Tick => {
            on_tick(state)?;
            Ok(())
        }
        MpInput::Lead => {
            on_lead(state)?;
            Ok(())
        }
    }
}

/// Applies the rule of another replica's message.
#[tactic(auto, unfolding(crsm_mpspec::specs::Step::on_message))]
fn on_message(state: &mut MpReplica, from: u32, message: &MpMessage) -> Result<(), NoMemory>
    ensures { MakesWhere (λ x. FitsMessage message.now) (steps.on_message from message.now) state.old result state.new }
{
    match message {
        MpMessage::Prep { ballot, start } => {
            on_prep(state, from, *ballot, *start)?;
            Ok(())
        }
        MpMessage::Prom {
            ballot,
            accepted,
            chosen,
        } => {
            on_prom(state, from, *ballot, accepted, chosen)?;
            Ok(())
        }
        MpMessage::No { promised } => {
            state.end_lead_below(*promised);
            Ok(())
        }
        MpMessage::Acc {
            ballot,
            slot,
            value,
        } => {
            on_acc(state, from, *ballot, *slot, value)?;
            Ok(())
        }
        MpMessage::Accd { ballot, slot } => {
            on_accd(state, from, *ballot, *slot)?;
            Ok(())
        }
        MpMessage::Learn { slot, value } => {
            state.choose(*slot, value)?;
            Ok(())
        }
        MpMessage::Ask { start } => {
            on_ask(state, from, *start)?;
            Ok(())
        }
    }
}
