//! The acceptor: what a replica promises and accepts in one instance.

ghost use Rattle.std.specs.Prelude.{◌≡◌, ◌≢◌, ◌↔◌, IsTrue, Option, Some, None, false};
ghost use Rattle.std.specs.Option.{IsSomeAnd};
ghost use Rattle.crsm_base.specs.Order.{ballot_lt};
ghost use Rattle.crsm_spec.specs.Paxos.{MayPromise, TakesVote, after_promise, after_accept};
ghost use Rattle.crsm_paxos.specs.Accepting.{IsAcceptedNow, NotAbove};

use crsm_base::{Ballot, Decision, ballot_precedes};
use std::marker::Model;

/// The answer to a ballot that asks for a promise.
#[derive(Clone, Copy, Debug, PartialEq, Eq)]
pub enum Promised {
    /// The ballot is above the promise, and is promised now.
    Yes,
    /// The ballot was promised already.
    Repeat,
    /// A greater ballot is promised, which is this.
    No(Ballot),
}

/// The answer to a proposal.
#[derive(Clone, Copy, Debug, PartialEq, Eq)]
pub enum Accepted {
    /// The proposal is accepted now.
    Yes,
    /// The proposal of this ballot was accepted already.
    Repeat,
    /// A greater ballot is promised, which is this.
    No(Ballot),
}

/// The promise of one replica in an instance, and the decision that it accepted. No call allocates. A library type: a
/// replica reads its own promise from its log (`crsm_replica_reconfigure`, promising).
pub struct Acceptor {
    promised: Ballot,
    accepted: Option<(Ballot, Decision)>,
}

// Written by hand, it is one call for the crates above, which would prove a derived one again.
impl Drop for Acceptor {
    fn drop(self) {
        let Acceptor {
            promised: _,
            accepted: _,
        } = self;
    }
}

impl Model for Acceptor {
    ghost use Rattle.crsm_spec.specs.Paxos.{Acceptance};
    ghost use Rattle.crsm_base.specs.declared.decision.Decision.{Decision};
    ghost use Rattle.crsm_paxos.specs.Accepting.{NotAbove};

    ghost Value = { Acceptance Decision };

    ghost view = { λ a. record { promised = a.promised; accepted = a.accepted } };

    ghost invariant = { λ a. NotAbove a.accepted a.promised };
}

impl Acceptor {
    /// Returns an acceptor that has promised this ballot and accepted this decision in the ballot beside it, which is
    /// not above the promise.
    pub fn new(promised: Ballot, accepted: Option<(Ballot, Decision)>) -> Acceptor
        requires { NotAbove accepted promised }
        ensures { result ≡ record { promised = promised; accepted = accepted } }
    {
        Acceptor { promised, accepted }
    }

    /// Promises the ballot if it is above the promise, and returns the answer. Otherwise nothing changes.
    #[tactic(auto, unfolding(crsm_base::specs::Order::ballot_lt))]
    pub fn promise(&mut self, b: Ballot) -> Promised
        ensures yes { (result ≡ Promised.Yes) ↔ MayPromise self.old b }
        ensures repeat { (result ≡ Promised.Repeat) ↔ (b ≡ self.old.promised) }
        ensures no { (result ≡ Promised.No self.old.promised) ↔ IsTrue (ballot_lt b self.old.promised) }
        ensures taken { result ≡ Promised.Yes → self.new ≡ after_promise self.old b }
        ensures kept { result ≢ Promised.Yes → self.new ≡ self.old }
    {
        if ballot_precedes(b, self.promised) {
            Promised::No(self.promised)
        } else if ballot_precedes(self.promised, b) {
            self.promised = b;
            Promised::Yes
        } else {
            Promised::Repeat
        }
    }

    /// Accepts the decision if the ballot is not below the promise, raises the promise to the ballot, and returns the
    /// answer. Otherwise nothing changes.
    pub fn accept(&mut self, b: Ballot, d: Decision) -> Accepted
        ensures yes { (result ≡ Accepted.Yes) ↔ TakesVote self.old b }
        ensures repeat { (result ≡ Accepted.Repeat) ↔ IsAcceptedNow self.old b }
        ensures no { (result ≡ Accepted.No self.old.promised) ↔ IsTrue (ballot_lt b self.old.promised) }
        ensures taken { result ≡ Accepted.Yes → self.new ≡ after_accept self.old b d }
        ensures kept { result ≢ Accepted.Yes → self.new ≡ self.old }
    {
        if ballot_precedes(b, self.promised) {
            return Accepted::No(self.promised);
        }
        if holds(&self.accepted, b) {
            return Accepted::Repeat;
        }
        self.promised = b;
        self.accepted = Some((b, d));
        Accepted::Yes
    }
}

/// Returns whether a decision is accepted in this ballot.
fn holds(accepted: &Option<(Ballot, Decision)>, b: Ballot) -> bool
    ensures { IsTrue result ↔ IsSomeAnd accepted.now (λ held. held.0 ≡ b) }
{
    match accepted {
        Some((held, _)) => *held == b,
        None => false,
    }
}
