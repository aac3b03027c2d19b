//! The proposer: a proposal in progress.

ghost use Rattle.std.specs.Prelude.{◌≡◌, ◌+◌, ◌^◌, ◌<◌, ◌≤◌, Option, Some, None, IfOk, OnOk, OnErr};
ghost use Rattle.crsm_base.specs.Messages.{FitsVote};
ghost use Rattle.crsm_base.specs.Order.{ballot_lt};
ghost use Rattle.crsm_base.specs.Spelling.{FitsDecision, FitsOption};
ghost use Rattle.crsm_spec.specs.Paxos.{better_held, value_of_best};
ghost use Rattle.crsm_spec.specs.Proposing.{start_proposing, after_p1b, after_p2b};
ghost use Rattle.crsm_paxos.specs.Best.{FitsFound, found_of, is_before};
ghost use Rattle.crsm_paxos.specs.Nexts.{next_of_p1b, next_of_p2b, next_of_no};

use crsm_base::{Ballot, Decision, NoMemory, ballot_precedes};
use std::alloc::Global;
use std::marker::Model;

/// The next step of a proposer.
#[derive(Drop)]
pub enum Next {
    /// This answer makes no majority, or it does not count.
    Wait,
    /// A majority has promised: propose this decision in this ballot.
    Propose(Ballot, Decision),
    /// A majority has accepted this decision.
    Chosen(Decision),
    /// The proposal is preempted by this greater ballot.
    Over(Ballot),
}

/// The accepted decision with the greatest ballot among the promises, and the replica that reported it.
#[derive(Drop)]
pub(crate) struct Best {
    pub(crate) ballot: Ballot,
    pub(crate) replica: u32,
    pub(crate) value: Decision,
}

/// A proposal in progress in one ballot of an instance. It counts each replica's promise and vote once. Its caller
/// ensures that these replicas belong to the replica set whose majority counts. All that it may send has an encoding.
#[derive(Drop)]
pub struct Proposer {
    pub(crate) alloc: Global,
    pub(crate) ballot: Ballot,
    pub(crate) own: Decision,
    pub(crate) size: u32,
    pub(crate) received: Vec<u32>,
    pub(crate) best: Option<Best>,
    pub(crate) has_proposed: bool,
    pub(crate) voters: Vec<u32>,
}

impl Model for Proposer {
    ghost use Rattle.crsm_spec.specs.Proposing.{Proposing};
    ghost use Rattle.crsm_base.specs.declared.decision.Decision.{Decision};
    ghost use Rattle.crsm_paxos.specs.Best.{CanSend, found_of};

    ghost Value = { Proposing Decision };

    ghost view = { λ p. record { ballot = p.ballot; own = p.own; size = p.size; received = p.received.items; best = found_of p.best; has_proposed = p.has_proposed; voters = p.voters.items } };

    ghost invariant = { λ p. CanSend p.ballot p.own (found_of p.best) };
}

impl Proposer {
    /// Begins a proposal of replica `me` in the round after that of the ballot, over a replica set of `n`. It proposes
    /// its own decision unless a promise names an accepted one.
    pub fn start(alloc: Global, own: Decision, above: Ballot, me: u32, n: u32) -> Proposer
        requires next { above.round + 1 < 2 ^ 64 }
        requires me { me < 15 }
        requires one { 1 ≤ n }
        requires few { n ≤ 15 }
        requires own { FitsDecision own }
        ensures { result ≡ start_proposing (record { round = above.round + 1; by = me }) own n }
    {
        let ballot = Ballot {
            round: above.round + 1,
            by: me,
        };
        Proposer {
            alloc,
            ballot,
            own,
            size: n,
            received: Vec::new(alloc),
            best: None,
            has_proposed: false,
            voters: Vec::new(alloc),
        }
    }

    /// Counts the promise of a replica, with the decision that it had accepted, and returns the next step: `Propose` at
    /// the promise that makes the majority. `NoMemory` if memory runs out; nothing has changed then.
    #[tactic(auto, unfolding(crsm_base::specs::Order::ballot_eq))]
    pub fn on_p1b(
        &mut self,
        from: u32,
        b: Ballot,
        accepted: Option<(Ballot, Decision)>,
    ) -> Result<Next, NoMemory>
        requires from { from < 15 }
        requires accepted { FitsOption FitsVote accepted }
        ensures state { OnOk result (self.new ≡ after_p1b self.old from b accepted) }
        ensures next { IfOk result (λ next. next ≡ next_of_p1b self.old from b accepted) }
        ensures err { OnErr result (self.new ≡ self.old) }
    {
        if b != self.ballot || self.has_proposed || self.received.contains(&from) {
            return Ok(Next::Wait);
        }
        if self.received.len() < (self.size / 2) as usize {
            self.received.push(from)?;
            self.best = better(self.best.take(), from, accepted);
            return Ok(Next::Wait);
        }
        let value = value_with(&self.own, &self.best, from, &accepted).copy(self.alloc)?;
        self.received.push(from)?;
        self.best = better(self.best.take(), from, accepted);
        self.has_proposed = true;
        Ok(Next::Propose(self.ballot, value))
    }

    /// Counts the vote of a replica for the proposed decision, and returns the next step: `Chosen` at the vote that
    /// makes the majority. `NoMemory` if memory runs out; nothing has changed then.
    #[tactic(auto, unfolding(crsm_base::specs::Order::ballot_eq))]
    pub fn on_p2b(&mut self, from: u32, b: Ballot) -> Result<Next, NoMemory>
        requires { from < 15 }
        ensures state { OnOk result (self.new ≡ after_p2b self.old from b) }
        ensures next { IfOk result (λ next. next ≡ next_of_p2b self.old from b) }
        ensures err { OnErr result (self.new ≡ self.old) }
    {
        if b != self.ballot || !self.has_proposed || self.voters.contains(&from) {
            return Ok(Next::Wait);
        }
        if self.voters.len() != (self.size / 2) as usize {
            self.voters.push(from)?;
            return Ok(Next::Wait);
        }
        let value = value_of(&self.own, &self.best).copy(self.alloc)?;
        self.voters.push(from)?;
        Ok(Next::Chosen(value))
    }

    /// Returns the next step after a replica has refused ballot `b` because it promised another. A library call: a
    /// replica's coordinator is preempted as a whole (`crsm_replica_coordinator`).
    #[tactic(auto, unfolding(crsm_base::specs::Order::ballot_eq))]
    pub fn on_no(&mut self, b: Ballot, promised: Ballot) -> Next
        ensures next { result ≡ next_of_no self.old b promised }
        ensures kept { self.new ≡ self.old }
    {
        if b == self.ballot && ballot_precedes(b, promised) {
            Next::Over(promised)
        } else {
            Next::Wait
        }
    }
}

/// Returns whether the first takes precedence over the second.
fn is_first(x: &Best, y: &Best) -> bool
    ensures { result ≡ is_before x.now y.now }
{
    ballot_precedes(y.ballot, x.ballot)
        || (!ballot_precedes(x.ballot, y.ballot) && x.replica < y.replica)
}

/// Returns the one that takes precedence: the best before, or the accepted decision of a further answer.
fn better(best: Option<Best>, replica: u32, accepted: Option<(Ballot, Decision)>) -> Option<Best>
    requires best { FitsFound (found_of best) }
    requires accepted { FitsOption FitsVote accepted }
    ensures value { found_of result ≡ better_held (found_of best) replica accepted }
    ensures fits { FitsFound (found_of result) }
{
    let Some((ballot, value)) = accepted else {
        return best;
    };
    let further = Best {
        ballot,
        replica,
        value,
    };
    match best {
        None => Some(further),
        Some(known) => {
            if is_first(&further, &known) {
                Some(further)
            } else {
                Some(known)
            }
        }
    }
}

/// Returns the value to propose: the best accepted one, or the proposer's own.
pub(crate) fn value_of<'a>(own: &'a Decision, best: &'a Option<Best>) -> &'a Decision
    requires own { FitsDecision own.now }
    requires best { FitsFound (found_of best.now) }
    ensures value { result.now ≡ value_of_best own.now (found_of best.now) }
    ensures fits { FitsDecision result.now }
{
    match best {
        None => own,
        Some(known) => &known.value,
    }
}

/// Returns the value to propose after a further answer.
pub(crate) fn value_with<'a>(
    own: &'a Decision,
    best: &'a Option<Best>,
    replica: u32,
    accepted: &'a Option<(Ballot, Decision)>,
) -> &'a Decision
    requires own { FitsDecision own.now }
    requires best { FitsFound (found_of best.now) }
    requires accepted { FitsOption FitsVote accepted.now }
    ensures value { result.now ≡ value_of_best own.now (better_held (found_of best.now) replica accepted.now) }
    ensures fits { FitsDecision result.now }
{
    let Some((ballot, value)) = accepted else {
        return value_of(own, best);
    };
    match best {
        None => value,
        Some(known) => {
            let first = ballot_precedes(known.ballot, *ballot)
                || (!ballot_precedes(*ballot, known.ballot) && replica < known.replica);
            if first { value } else { &known.value }
        }
    }
}
