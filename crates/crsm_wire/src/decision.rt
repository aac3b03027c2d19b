//! Whether decisions can be encoded: all their fields are within the limits.

ghost use Rattle.std.specs.Prelude.{◌≡◌, ◌+◌, ◌==◌, IsTrue};
ghost use Rattle.std.specs.List.{list_all};
ghost use Rattle.crsm_base.specs.Members.{IsMembers};
ghost use Rattle.crsm_base.specs.Messages.{FitsVote};
ghost use Rattle.crsm_base.specs.Spelling.{FitsDecision, FitsOption};

use crate::entries::are_entries_spelt;
use crate::fields::is_ballot_spelt;
use crsm_base::{Ballot, Decision, Entry, Members};

fn is_just_before(entry: &Entry, epoch: u64) -> bool
    ensures { result ≡ (entry.now.epoch + 1 == epoch) }
{
    entry.epoch < epoch && epoch - entry.epoch == 1
}

fn is_tail_before(decision: &Decision) -> bool
    ensures { result ≡ list_all (λ e. e.epoch + 1 == decision.now.epoch) decision.now.tail }
{
    for entry in decision.tail.as_slice() {
        if !is_just_before(entry, decision.epoch) {
            return false;
        }
    }
    true
}

/// Returns true: the type has only members, and this restates it for the proofs of callers.
fn are_members(members: &Members) -> bool
    ensures { IsTrue result → IsMembers members.now }
{
    members.count() > 0
}

fn is_set_spelt(replicas: &Option<Members>) -> bool
    ensures { IsTrue result → FitsOption IsMembers replicas.now }
{
    match replicas {
        None => true,
        Some(replicas) => are_members(replicas),
    }
}

/// Returns whether the decision can be encoded.
pub fn is_decision_spelt(decision: &Decision) -> bool
    ensures { IsTrue result → FitsDecision decision.now }
{
    let count = decision.tail.as_slice().len() as u64;
    if decision.epoch < 1 || decision.base_len > u64::MAX - count {
        return false;
    }
    if !is_set_spelt(&decision.spec) {
        return false;
    }
    if !are_members(&decision.members) {
        return false;
    }
    if !are_entries_spelt(&decision.tail) {
        return false;
    }
    is_tail_before(decision)
}

/// Returns whether the accepted ballot and decision, if there are any, can be encoded.
pub fn is_vote_spelt(accepted: &Option<(Ballot, Decision)>) -> bool
    ensures { IsTrue result → FitsOption FitsVote accepted.now }
{
    match accepted {
        None => true,
        Some((ballot, decision)) => is_ballot_spelt(*ballot) && is_decision_spelt(decision),
    }
}
