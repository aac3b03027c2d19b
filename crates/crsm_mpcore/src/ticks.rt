//! The rule for ticks: requests that are not answered are retransmitted.

ghost use Rattle.std.specs.Prelude.{◌≡◌, take, IfOk};
ghost use Rattle.std.specs.BTreeMap.{keys};
ghost use Rattle.crsm_base.specs.Limits.{most_again};
ghost use Rattle.crsm_mpspec.specs.Step as steps;
ghost use Rattle.crsm_mpreplica.specs.State.{Makes, MakesWhere, WhereStands};
ghost use Rattle.crsm_mpcore.specs.Ticks as ticks;
ghost use Rattle.crsm_mpcore.specs.Ticks.{IsOpen, proposal, propose_slot, question, slots_again};

use crsm_base::{MAX_SENT_AGAIN, NoMemory, is_among};
use crsm_mpreplica::{Leading, MpReplica, Note};
use crsm_mpspec::MpMessage;
use std::alloc::Global;
use std::collections::BTreeMap;

/// Handles a tick: retransmits the requests that are not answered, and asks all replicas for executed values that this
/// one does not have.
pub(crate) fn on_tick(state: &mut MpReplica) -> Result<(), NoMemory>
    ensures { Makes steps.on_tick state.old result state.new }
{
    ask_again(state)?;
    propose_all_again(state)?;
    let start = state.ledger().executed_len();
    state.send_to_others(MpMessage::Ask { start })?;
    Ok(())
}

/// Asks the replicas that have not reported again for their promises.
fn ask_again(state: &mut MpReplica) -> Result<(), NoMemory>
    ensures { Makes ticks.ask_again state.old result state.new }
{
    for to in 0..state.n() {
        if let Some(message) = question_to(state, to) {
            state.send(to, message)?;
        }
    }
    Ok(())
}

/// Returns the request for a promise of a replica, or `None` if no promise of it is missing.
fn question_to(state: &MpReplica, to: u32) -> Option<MpMessage>
    ensures { WhereStands state.now (λ x. result ≡ question x.replica.me x.replica.note to) }
{
    if to == state.me() {
        return None;
    }
    let Note::Asking(asking) = state.note() else {
        return None;
    };
    if asking.reports.contains_key(&to) {
        return None;
    }
    Some(MpMessage::Prep {
        ballot: asking.ballot,
        start: asking.start,
    })
}

/// Proposes again at the first open slots.
fn propose_all_again(state: &mut MpReplica) -> Result<(), NoMemory>
    ensures { Makes ticks.propose_all_again state.old result state.new }
{
    let slots = open_slots(state)?;
    for slot in &slots {
        propose_again(state, *slot)?;
    }
    Ok(())
}

/// Returns the first slots at which this lead has proposed and which are not chosen yet.
fn open_slots(state: &MpReplica) -> Result<Vec<u64>, NoMemory>
    ensures { IfOk result (λ slots. WhereStands state.now (λ x. slots.items ≡ slots_again x.replica x.replica.note)) }
{
    match state.note() {
        Note::Leading(leading) => Ok(first_slots(state.alloc(), &leading.open)?),
        _ => Ok(Vec::new(state.alloc())),
    }
}

/// Returns the first slots of a map.
fn first_slots(alloc: Global, slots: &BTreeMap<u64, Vec<u32>>) -> Result<Vec<u64>, NoMemory>
    ensures { IfOk result (λ first. first.items ≡ take most_again (keys slots.now)) }
{
    let first = slots
        .keys()
        .take(MAX_SENT_AGAIN as usize)
        .copied()
        .collect(alloc)?;
    Ok(first)
}

/// Proposes the accepted value at an open slot again to the replicas that have not voted.
fn propose_again(state: &mut MpReplica, slot: u64) -> Result<(), NoMemory>
    ensures { MakesWhere (λ x. IsOpen slot x.replica x.replica.note) (propose_slot slot) state.old result state.new }
{
    for to in 0..state.n() {
        if let Some(message) = proposal_to(state, slot, to)? {
            state.send(to, message)?;
        }
    }
    Ok(())
}

/// Returns the proposal at an open slot for a replica, or `None` if it has voted there.
fn proposal_to(state: &MpReplica, slot: u64, to: u32) -> Result<Option<MpMessage>, NoMemory>
    ensures { IfOk result (λ message. WhereStands state.now (λ x. IsOpen slot x.replica x.replica.note → message ≡ proposal slot x.replica x.replica.note to)) }
{
    if to == state.me() {
        return Ok(None);
    }
    let Note::Leading(leading) = state.note() else {
        return Ok(None);
    };
    if has_voted(leading, slot, to) {
        return Ok(None);
    }
    let Some((_, accepted)) = state.ledger().accepted(slot) else {
        return Ok(None);
    };
    Ok(Some(MpMessage::Acc {
        ballot: leading.ballot,
        slot,
        value: accepted.share()?,
    }))
}

/// Returns whether the replica has voted at an open slot.
fn has_voted(leading: &Leading, slot: u64, replica: u32) -> bool
    ensures { result ≡ ticks.is_voter leading.now slot replica }
{
    match leading.open.get(&slot) {
        Some(voters) => is_among(voters.as_slice(), replica),
        None => false,
    }
}
