//! The election of a leader: a replica asks for promises of a ballot, and the reports of a majority determine what it
//! proposes.

ghost use Rattle.std.specs.Prelude.{◌<◌, IfOk};
ghost use Rattle.crsm_base.specs.Spelling.{FitsBallot};
ghost use Rattle.crsm_spec.specs.Clock.{u64_max};
ghost use Rattle.crsm_mpspec.specs.Electing as electing;
ghost use Rattle.crsm_mpspec.specs.declared.message.MpMessage.{MpMessage as Message};
ghost use Rattle.crsm_mpreplica.specs.Fitting.{FitsMessage};
ghost use Rattle.crsm_mpreplica.specs.State.{Makes, MakesWhere, WhereStands};
ghost use Rattle.crsm_mpcore.specs.Elections as elections;
ghost use Rattle.crsm_mpcore.specs.Elections.{AreTheirs, IsElection, MakesBy, send_report, with_promise};

use crate::deciding::propose;
use crate::findings::Findings;
use crsm_base::{Ballot, NoMemory, ballot_precedes, majority};
use crsm_mpreplica::{Asking, MpReplica, Note};
use crsm_mpspec::{MpAccepts, MpChoices, MpMessage};
use std::alloc::Global;

/// Handles a request to become the leader: ends a lead, and asks for promises in a ballot of its own above its promise,
/// if there is one.
pub(crate) fn on_lead(state: &mut MpReplica) -> Result<(), NoMemory>
    ensures { Makes electing.on_lead state.old result state.new }
{
    state.end_lead();
    let promised = state.ledger().promised();
    if promised.round == u64::MAX {
        return Ok(());
    }
    let ballot = Ballot {
        round: promised.round + 1,
        by: state.me(),
    };
    ask(state, ballot)?;
    Ok(())
}

/// Asks all replicas for promises of the ballot, its own first.
fn ask(state: &mut MpReplica, ballot: Ballot) -> Result<(), NoMemory>
    ensures { MakesWhere (λ x. FitsBallot ballot) (electing.ask ballot) state.old result state.new }
{
    state.promise(ballot)?;
    let start = state.ledger().executed_len();
    state.begin_asking(ballot, start)?;
    state.send_to_others(MpMessage::Prep { ballot, start })?;
    lead_at_majority(state)?;
    Ok(())
}

/// Handles a replica's request for a promise, and for a report from a slot on.
pub(crate) fn on_prep(
    state: &mut MpReplica,
    from: u32,
    ballot: Ballot,
    start: u64,
) -> Result<(), NoMemory>
    ensures { MakesWhere (λ x. FitsBallot ballot) (electing.on_prep from ballot start) state.old result state.new }
{
    let promised = state.ledger().promised();
    if ballot_precedes(ballot, promised) {
        state.send(from, MpMessage::No { promised })?;
        return Ok(());
    }
    promise_above(state, ballot)?;
    report_to(state, from, ballot, start)?;
    Ok(())
}

/// Promises a ballot that is above the promise.
fn promise_above(state: &mut MpReplica, ballot: Ballot) -> Result<(), NoMemory>
    ensures { MakesWhere (λ x. FitsBallot ballot) (with_promise ballot) state.old result state.new }
{
    if !ballot_precedes(state.ledger().promised(), ballot) {
        return Ok(());
    }
    state.promise(ballot)?;
    Ok(())
}

/// Reports to a replica from a slot on, with the promise of a ballot.
fn report_to(state: &mut MpReplica, to: u32, ballot: Ballot, start: u64) -> Result<(), NoMemory>
    ensures { MakesWhere (λ x. FitsBallot ballot) (send_report to ballot start) state.old result state.new }
{
    let message = MpMessage::Prom {
        ballot,
        accepted: state.ledger().accepted_from(start)?,
        chosen: state.ledger().chosen_from(start)?,
    };
    state.send(to, message)?;
    Ok(())
}

/// Handles the promise of a replica, with its report of accepted and chosen values.
pub(crate) fn on_prom(
    state: &mut MpReplica,
    from: u32,
    ballot: Ballot,
    accepted: &MpAccepts,
    chosen: &MpChoices,
) -> Result<(), NoMemory>
    ensures { MakesWhere (λ x. FitsMessage (Message.Prom ballot accepted.now chosen.now)) (electing.on_prom from ballot accepted.now chosen.now) state.old result state.new }
{
    let is_awaited = state.take_report(from, ballot, accepted, chosen)?;
    if !is_awaited {
        return Ok(());
    }
    lead_at_majority(state)?;
    Ok(())
}

/// The ballot that a majority has promised, and the content of its reports.
#[derive(Drop)]
pub(crate) struct Election {
    ballot: Ballot,
    start: u64,
    findings: Findings,
}

/// Returns the election, if promises are asked for and a majority has reported.
fn election_of(state: &MpReplica) -> Result<Option<Election>, NoMemory>
    ensures { IfOk result (λ election. WhereStands state.now (IsElection election)) }
{
    let Note::Asking(asking) = state.note() else {
        return Ok(None);
    };
    if asking.reports.len() < majority(state.n()) as usize {
        return Ok(None);
    }
    Ok(Some(Election {
        ballot: asking.ballot,
        start: asking.start,
        findings: findings_of(state.alloc(), asking)?,
    }))
}

/// Returns the joint content of all reports.
fn findings_of(alloc: Global, asking: &Asking) -> Result<Findings, NoMemory>
    ensures { IfOk result (λ findings. AreTheirs findings asking.now) }
{
    let mut findings = Findings::new(alloc, asking.start);
    for report in asking.reports.values() {
        findings.add(report)?;
    }
    Ok(findings)
}

/// Becomes the leader if a majority has reported.
fn lead_at_majority(state: &mut MpReplica) -> Result<(), NoMemory>
    ensures { Makes electing.lead_at_majority state.old result state.new }
{
    let Some(election) = election_of(state)? else {
        return Ok(());
    };
    lead(state, &election)?;
    Ok(())
}

/// Becomes the leader: records the values reported as chosen, and proposes again at the other slots up to the last that
/// is reported.
fn lead(state: &mut MpReplica, election: &Election) -> Result<(), NoMemory>
    ensures { MakesBy election.now (electing.lead election.now.ballot election.now.start) state.old result state.new }
{
    choose_all(state, election)?;
    state.lead(election.ballot, election.findings.next());
    propose_all(state, election)?;
    Ok(())
}

/// Records the values reported as chosen.
fn choose_all(state: &mut MpReplica, election: &Election) -> Result<(), NoMemory>
    ensures { MakesBy election.now elections.choose_all state.old result state.new }
{
    for (slot, value) in election.findings.chosen() {
        state.choose(*slot, value)?;
    }
    Ok(())
}

/// Proposes the value that the reports determine at each slot up to the last that is reported.
fn propose_all(state: &mut MpReplica, election: &Election) -> Result<(), NoMemory>
    ensures { MakesBy election.now (elections.propose_all election.now.ballot election.now.start) state.old result state.new }
{
    for slot in election.start..election.findings.next() {
        propose_reported(state, election, slot)?;
    }
    Ok(())
}

/// Proposes the value that the reports determine at a slot, unless its value is known.
fn propose_reported(state: &mut MpReplica, election: &Election, slot: u64) -> Result<(), NoMemory>
    ensures { slot < u64_max → MakesBy election.now (λ reports x. electing.propose_reported election.now.ballot reports x slot) state.old result state.new }
{
    if state.ledger().is_chosen(slot) {
        return Ok(());
    }
    let value = election.findings.value_at(slot)?;
    propose(state, election.ballot, slot, &value)?;
    Ok(())
}
