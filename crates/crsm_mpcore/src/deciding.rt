//! The decision of a slot: a leader proposes, the others accept, and a majority of votes chooses.

ghost use Rattle.std.specs.Prelude.{◌≡◌, Some};
ghost use Rattle.crsm_mpspec.specs.Deciding as deciding;
ghost use Rattle.crsm_mpspec.specs.declared.message.MpMessage.{MpMessage as Message};
ghost use Rattle.crsm_mpreplica.specs.Fitting.{FitsAccept, FitsMessage};
ghost use Rattle.crsm_mpreplica.specs.State.{Makes, MakesWhere, WhereStands};
ghost use Rattle.crsm_mpcore.specs.Parts.{accept_once, ask_to_accept};

use crsm_base::{Ballot, NoMemory, ballot_precedes};
use crsm_mpreplica::MpReplica;
use crsm_mpspec::{MpMessage, SharedCommand, SharedValue};

/// Proposes the value that an earlier ballot may have proposed at a slot, or a noop.
pub(crate) fn propose(
    state: &mut MpReplica,
    ballot: Ballot,
    slot: u64,
    value: &SharedValue,
) -> Result<(), NoMemory>
    ensures { MakesWhere (λ x. FitsAccept slot ballot value.now) (deciding.propose ballot slot value.now) state.old result state.new }
{
    state.accept(slot, ballot, value)?;
    ask_to_accept(state, ballot, slot, value)?;
    Ok(())
}

/// Proposes a client's command at a slot, and records that the client waits there.
pub(crate) fn submit(
    state: &mut MpReplica,
    ballot: Ballot,
    slot: u64,
    command: &SharedCommand,
) -> Result<(), NoMemory>
    ensures { MakesWhere (λ x. FitsAccept slot ballot (Some command.now)) (deciding.submit ballot slot command.now) state.old result state.new }
{
    let awaited = command.share()?;
    state.await_command(slot, awaited)?;
    state.submit(slot, ballot, command)?;
    let value = command.to_value()?;
    ask_to_accept(state, ballot, slot, &value)?;
    Ok(())
}

/// Counts the leader's own vote for a value that it has accepted, and asks the others to accept it.
fn ask_to_accept(
    state: &mut MpReplica,
    ballot: Ballot,
    slot: u64,
    value: &SharedValue,
) -> Result<(), NoMemory>
    ensures { MakesWhere (λ x. FitsAccept slot ballot value.now) (ask_to_accept ballot slot value.now) state.old result state.new }
{
    state.open_slot(slot)?;
    let message = MpMessage::Acc {
        ballot,
        slot,
        value: value.share()?,
    };
    state.send_to_others(message)?;
    choose_voted(state, slot)?;
    Ok(())
}

/// Chooses the leader's value at a majority of votes, and sends it to the others.
fn choose_voted(state: &mut MpReplica, slot: u64) -> Result<(), NoMemory>
    ensures { Makes (deciding.choose_voted slot) state.old result state.new }
{
    if !state.is_voted(slot) {
        return Ok(());
    }
    let Some((_, accepted)) = state.ledger().accepted(slot) else {
        return Ok(());
    };
    let value = accepted.share()?;
    state.choose(slot, &value)?;
    state.send_to_others(MpMessage::Learn { slot, value })?;
    Ok(())
}

/// Handles a leader's request to accept a value at a slot in a ballot: accepts it unless a greater ballot is promised.
/// A repeated request is answered again.
pub(crate) fn on_acc(
    state: &mut MpReplica,
    from: u32,
    ballot: Ballot,
    slot: u64,
    value: &SharedValue,
) -> Result<(), NoMemory>
    ensures { MakesWhere (λ x. FitsAccept slot ballot value.now) (deciding.on_acc from ballot slot value.now) state.old result state.new }
{
    let promised = state.ledger().promised();
    if ballot_precedes(ballot, promised) {
        state.send(from, MpMessage::No { promised })?;
        return Ok(());
    }
    accept_once(state, ballot, slot, value)?;
    state.send(from, MpMessage::Accd { ballot, slot })?;
    Ok(())
}

/// Accepts a value at a slot in a ballot, unless it was accepted before.
fn accept_once(
    state: &mut MpReplica,
    ballot: Ballot,
    slot: u64,
    value: &SharedValue,
) -> Result<(), NoMemory>
    ensures { MakesWhere (λ x. FitsAccept slot ballot value.now) (accept_once ballot slot value.now) state.old result state.new }
{
    if has_accepted(state, ballot, slot) {
        return Ok(());
    }
    state.accept(slot, ballot, value)?;
    Ok(())
}

/// Returns whether the value accepted last at a slot is that of this ballot.
fn has_accepted(state: &MpReplica, ballot: Ballot, slot: u64) -> bool
    ensures { WhereStands state.now (λ x. result ≡ deciding.has_accepted ballot slot x.replica.log) }
{
    match state.ledger().accepted(slot) {
        Some((accepted, _)) => *accepted == ballot,
        None => false,
    }
}

/// Handles a vote for the proposal at a slot in a ballot.
pub(crate) fn on_accd(
    state: &mut MpReplica,
    from: u32,
    ballot: Ballot,
    slot: u64,
) -> Result<(), NoMemory>
    ensures { MakesWhere (λ x. FitsMessage (Message.Accd ballot slot)) (deciding.on_accd from ballot slot) state.old result state.new }
{
    if state.take_vote(from, ballot, slot)? {
        choose_voted(state, slot)?;
    }
    Ok(())
}
