//! Readers of a replica in memory.

ghost use Rattle.std.specs.Prelude.{◌≡◌, ◌≢◌, ◌<◌, true, length, All, IfOk, Some};
ghost use Rattle.crsm_base.specs.Order.{ballot_eq};
ghost use Rattle.crsm_base.specs.Messages.{FitsVote};
ghost use Rattle.crsm_base.specs.Spelling.{FitsBallot, FitsDecision, FitsOption, FitsStamp};
ghost use Rattle.std.specs.Option.{option_map_or};
ghost use Rattle.crsm_spec.specs.Lists.{has, first_of};
ghost use Rattle.crsm_spec.specs.Log.{known, start, executed, unexecuted, decision, live, suspended, active, promised, accepted};
ghost use Rattle.crsm_spec.specs.Replica.{members_of, spec_of, others, other_members, last_issued, latest_from, next_from, frames_to, is_congested};
ghost use Rattle.crsm_spec.specs.Draft.{Draft, would};
ghost use Rattle.crsm_spec.specs.Clients.{own_unexecuted};
ghost use Rattle.crsm_spec.specs.Coordinate.{has_accepted};
ghost use Rattle.crsm_replica.specs.Replica.{ReplicaStands, ready_of, WhereStands};

use crate::state::ReplicaState;
use crsm_base::{Ballot, Decision, MAX_REPLICAS, NoMemory, Stamp, is_same_ballot};
use std::alloc::Global;

impl ReplicaState {
    /// Returns its allocator.
    pub fn alloc(&self) -> Global {
        self.alloc
    }

    #[tactic(auto, unfolding(crate::specs::Replica::ReplicaStands))]
    /// Returns the number of the replica.
    pub fn me(&self) -> u32
        ensures value { WhereStands self.now (λ x. result ≡ x.replica.me) }
        ensures below { result < 15 }
    {
        self.me.min(MAX_REPLICAS - 1)
    }

    #[tactic(auto, unfolding(crate::specs::Replica::ReplicaStands))]
    /// Returns the number of the known epoch.
    pub fn known(&self) -> u64
        ensures { WhereStands self.now (λ x. result ≡ known x.replica.log) }
    {
        self.ledger.known().epoch
    }

    #[tactic(auto, unfolding(crate::specs::Replica::ReplicaStands))]
    /// Returns the number of entries that were executed when the known epoch began.
    pub fn start(&self) -> u64
        ensures { WhereStands self.now (λ x. result ≡ start x.replica.log) }
    {
        self.ledger.start()
    }

    #[tactic(auto, unfolding(crate::specs::Replica::ReplicaStands))]
    /// Returns the number of executed entries.
    pub fn executed_len(&self) -> u64
        ensures { WhereStands self.now (λ x. result ≡ length (executed x.replica.log)) }
    {
        self.ledger.executed_len()
    }

    #[tactic(auto, unfolding(crate::specs::Replica::ReplicaStands))]
    /// Returns the number of executed entries on which the known epoch's decision builds, 0 in the first epoch.
    pub fn base_len(&self) -> u64
        ensures { WhereStands self.now (λ x. result ≡ option_map_or (λ d. d.base_len) (decision x.replica.log) 0) }
    {
        self.ledger.known().base_len
    }

    #[tactic(auto, unfolding(crate::specs::Replica::ReplicaStands))]
    /// Returns whether this boot has entered the known epoch.
    pub fn is_live(&self) -> bool
        ensures { WhereStands self.now (λ x. result ≡ live x.replica.log) }
    {
        self.ledger.live()
    }

    #[tactic(auto, unfolding(crate::specs::Replica::ReplicaStands))]
    /// Returns whether the replica is suspended: it takes no further part in the known epoch.
    pub fn is_suspended(&self) -> bool
        ensures { WhereStands self.now (λ x. result ≡ suspended x.replica.log) }
    {
        self.ledger.suspended()
    }

    #[tactic(auto, unfolding(crate::specs::Replica::ReplicaStands))]
    /// Returns whether the replica is live and not suspended.
    pub fn is_active(&self) -> bool
        ensures { WhereStands self.now (λ x. result ≡ active x.replica.log) }
    {
        if self.ledger.suspended() {
            return false;
        }
        self.ledger.live()
    }

    #[tactic(auto, unfolding(crate::specs::Replica::ReplicaStands))]
    /// Returns the ballot that is promised for the next decision, or round 0 of replica 0 if none is.
    pub fn promised(&self) -> Ballot
        ensures value { WhereStands self.now (λ x. result ≡ promised x.replica.log) }
        ensures fits { FitsBallot result }
    {
        self.ledger.promised()
    }

    #[tactic(auto, unfolding(crate::specs::Replica::ReplicaStands))]
    /// Returns whether a decision was accepted here in this ballot.
    pub fn has_accepted(&self, b: Ballot) -> bool
        ensures { WhereStands self.now (λ x. result ≡ has_accepted b x) }
    {
        match self.ledger.accepted() {
            Some((ballot, _)) => is_same_ballot(*ballot, b),
            None => false,
        }
    }

    #[tactic(auto, unfolding(crate::specs::Replica::ReplicaStands))]
    /// Returns the accepted decision with its ballot, or `None` if none was accepted. `NoMemory` if memory runs out.
    pub fn accepted(&self) -> Result<Option<(Ballot, Decision)>, NoMemory>
        ensures value { WhereStands self.now (λ x. IfOk result (λ r. r ≡ accepted x.replica.log)) }
        ensures fits { IfOk result (FitsOption FitsVote) }
    {
        match self.ledger.accepted() {
            Some((ballot, decision)) => Ok(Some((*ballot, decision.copy(self.alloc)?))),
            None => Ok(None),
        }
    }

    #[tactic(auto, unfolding(crate::specs::Replica::ReplicaStands))]
    /// Returns the decision of the known epoch, or `None` in the first epoch, which has none. `NoMemory` if memory runs
    /// out.
    pub fn decision(&self) -> Result<Option<Decision>, NoMemory>
        ensures value { WhereStands self.now (λ x. IfOk result (λ r. r ≡ decision x.replica.log)) }
        ensures fits { IfOk result (FitsOption FitsDecision) }
    {
        let known = self.ledger.known();
        if known.epoch == 0 {
            return Ok(None);
        }
        Ok(Some(known.copy(self.alloc)?))
    }

    #[tactic(auto, unfolding(crate::specs::Replica::ReplicaStands))]
    /// Returns the time that the clock would issue at this reading, or `None` if the latest is 2^64 - 1.
    pub fn would(&self, reading: u64) -> Option<u64>
        ensures { WhereStands self.now (λ x. result ≡ would x reading) }
    {
        self.epoch_state.would(reading)
    }

    #[tactic(auto, unfolding(crate::specs::Replica::ReplicaStands))]
    /// Returns the time issued last, 0 before the first.
    pub fn last_issued(&self) -> u64
        ensures { WhereStands self.now (λ x. result ≡ last_issued x.replica) }
    {
        self.epoch_state.last_issued()
    }

    #[tactic(auto, unfolding(crate::specs::Replica::ReplicaStands))]
    /// Returns the latest time received from another replica `k`, 0 before the first.
    pub fn latest_from(&self, k: u32) -> u64
        requires { k < 15 }
        ensures { WhereStands self.now (λ x. (k ≢ x.replica.me) → result ≡ latest_from x.replica.received k) }
    {
        self.epoch_state.latest_from(k)
    }

    #[tactic(auto, unfolding(crate::specs::Replica::ReplicaStands))]
    /// Returns the number of the next frame from replica `k`.
    pub fn next_from(&self, k: u32) -> u64
        requires { k < 15 }
        ensures { WhereStands self.now (λ x. result ≡ next_from x.replica k) }
    {
        self.epoch_state.next_from(k)
    }

    #[tactic(auto, unfolding(crate::specs::Replica::ReplicaStands))]
    /// Returns the number of frames pushed to replica `k`.
    pub fn pushed_to(&self, k: u32) -> u64
        requires { k < 15 }
        ensures { WhereStands self.now (λ x. result ≡ length (frames_to x.replica k)) }
    {
        self.epoch_state.pushed_to(k)
    }

    #[tactic(auto, unfolding(crate::specs::Replica::ReplicaStands))]
    /// Returns whether a link to a member is at `MAX_LINK_FRAMES` or above.
    pub fn is_congested(&self) -> bool
        ensures { WhereStands self.now (λ x. result ≡ is_congested x.replica) }
    {
        self.epoch_state
            .is_congested(self.me, &self.ledger.known().members)
    }

    #[tactic(auto, unfolding(crate::specs::Replica::ReplicaStands))]
    /// Returns the number of its own entries that are not executed; specified while the replica is active.
    pub fn own_unexecuted(&self) -> u64
        ensures { WhereStands self.now (λ x. active x.replica.log ≡ true → result ≡ length (own_unexecuted x.replica)) }
    {
        self.epoch_state.own_unexecuted(self.me())
    }

    #[tactic(auto, unfolding(crate::specs::Replica::ReplicaStands))]
    /// Returns the number of entries that are not executed; specified while the replica is active.
    pub fn unexecuted_len(&self) -> u64
        ensures { WhereStands self.now (λ x. active x.replica.log ≡ true → result ≡ length (unexecuted x.replica.log)) }
    {
        self.ledger.unexecuted_len()
    }

    #[tactic(auto, unfolding(crate::specs::Replica::ReplicaStands))]
    /// Returns the number of pending acknowledgements.
    pub fn owed_len(&self) -> u64
        ensures { WhereStands self.now (λ x. result ≡ length x.replica.owed) }
    {
        self.epoch_state.owed_len()
    }

    #[tactic(auto, unfolding(crate::specs::Replica::ReplicaStands))]
    /// Returns the least stamp with a pending acknowledgement, or `None` if none is pending.
    pub fn first_owed(&self) -> Option<Stamp>
        ensures { WhereStands self.now (λ x. result ≡ first_of x.replica.owed) }
    {
        self.epoch_state.first_owed()
    }

    #[tactic(auto, unfolding(crate::specs::Replica::ReplicaStands))]
    /// Returns the stamp of the next entry to execute if it is ready, else `None`; specified while the replica is
    /// active. `NoMemory` if memory runs out.
    pub fn ready(&self) -> Result<Option<Stamp>, NoMemory>
        ensures value { WhereStands self.now (λ x. active x.replica.log ≡ true → IfOk result (λ r. r ≡ ready_of x.replica)) }
        ensures fits { IfOk result (λ r. FitsOption FitsStamp r) }
    {
        let ready = self
            .epoch_state
            .ready(&self.ledger.known().members, self.ledger.counted());
        Ok(of_a_replica(ready))
    }
}

/// Returns the stamp if its origin is the number of a replica, else `None`.
fn of_a_replica(stamp: Option<Stamp>) -> Option<Stamp>
    ensures same { FitsOption FitsStamp stamp → result ≡ stamp }
    ensures fits { FitsOption FitsStamp result }
{
    match stamp {
        Some(stamp) if stamp.origin < MAX_REPLICAS => Some(stamp),
        _ => None,
    }
}
