//! Readers of a proposal in progress.

ghost use Rattle.std.specs.Prelude.{◌≡◌, ◌+◌, nat_le, length};
ghost use Rattle.crsm_base.specs.Messages.{FitsVote};
ghost use Rattle.crsm_base.specs.Spelling.{FitsBallot, FitsDecision, FitsOption};
ghost use Rattle.crsm_spec.specs.Paxos.{majority};
ghost use Rattle.crsm_spec.specs.Proposing.{after_answer, is_received, value_proposed};

use crate::proposer::{Proposer, value_of, value_with};
use crsm_base::{Ballot, Decision};

impl Proposer {
    /// Returns the ballot of the proposal.
    pub fn ballot(&self) -> Ballot
        ensures value { result ≡ self.now.ballot }
        ensures fits { FitsBallot result }
    {
        self.ballot
    }

    /// Returns the decision that it proposes if no promise names an accepted one.
    pub fn own(&self) -> &Decision
        ensures { result.now ≡ self.now.own }
    {
        &self.own
    }

    /// Returns whether a majority has promised, so that the value is proposed.
    pub fn has_proposed(&self) -> bool
        ensures { result ≡ self.now.has_proposed }
    {
        self.has_proposed
    }

    /// Returns whether the promise of a replica is counted.
    pub fn has_promise_of(&self, replica: u32) -> bool
        ensures { result ≡ is_received self.now.received replica }
    {
        self.received.contains(&replica)
    }

    /// Returns whether the vote of a replica is counted.
    pub fn has_vote_of(&self, replica: u32) -> bool
        ensures { result ≡ is_received self.now.voters replica }
    {
        self.voters.contains(&replica)
    }

    /// Returns whether one more promise makes a majority.
    pub fn is_last_promise(&self) -> bool
        ensures { result ≡ nat_le (majority self.now.size) (length self.now.received + 1) }
    {
        self.received.len() >= (self.size / 2) as usize
    }

    /// Returns whether one more vote makes a majority.
    pub fn is_last_vote(&self) -> bool
        ensures { result ≡ nat_le (majority self.now.size) (length self.now.voters + 1) }
    {
        self.voters.len() >= (self.size / 2) as usize
    }

    /// Returns whether a majority has voted.
    pub fn is_chosen(&self) -> bool
        ensures { result ≡ nat_le (majority self.now.size) (length self.now.voters) }
    {
        self.voters.len() > (self.size / 2) as usize
    }

    /// Returns the value to propose after the promises counted.
    pub fn value(&self) -> &Decision
        ensures value { result.now ≡ value_proposed self.now }
        ensures fits { FitsDecision result.now }
    {
        value_of(&self.own, &self.best)
    }

    /// Returns the value to propose after a further answer, which is not counted yet.
    pub fn value_with<'a>(
        &'a self,
        from: u32,
        accepted: &'a Option<(Ballot, Decision)>,
    ) -> &'a Decision
        requires { FitsOption FitsVote accepted.now }
        ensures value { result.now ≡ value_proposed (after_answer self.now from accepted.now) }
        ensures fits { FitsDecision result.now }
    {
        value_with(&self.own, &self.best, from, accepted)
    }

    /// Ends the proposal and returns its own decision.
    pub fn into_own(self) -> Decision
        ensures value { result ≡ self.own }
        ensures fits { FitsDecision result }
    {
        self.own
    }

    /// Ends the proposal and returns the value it must propose.
    pub fn into_value(self) -> Decision
        ensures { result ≡ value_proposed self }
    {
        let Proposer { own, best, .. } = self;
        match best {
            None => own,
            Some(known) => known.value,
        }
    }
}
