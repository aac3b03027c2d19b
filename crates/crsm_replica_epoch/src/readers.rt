//! Readers of an epoch's state.

ghost use Rattle.std.specs.Prelude.{◌≡◌, ◌≢◌, ◌<◌, true, length, take, IfOk};
ghost use Rattle.crsm_base.specs.Limits.{most_again};
ghost use Rattle.crsm_spec.specs.Clock.{issue};
ghost use Rattle.crsm_spec.specs.Lists.{first_of};
ghost use Rattle.crsm_spec.specs.Log.{active};
ghost use Rattle.crsm_spec.specs.Replica.{Replica, members_of, spec_of, last_issued, latest_from, next_from, frames_to, unacked, is_congested};
ghost use Rattle.crsm_spec.specs.Clients.{own_unexecuted};
ghost use Rattle.crsm_replica_epoch.specs.EpochState.{EpochStands, WhereStands};
ghost use Rattle.crsm_replica_epoch.specs.First.{ready_of};

use crate::state::EpochState;
use crsm_base::{Members, NoMemory, Stamp};
use crsm_link::Frames;

impl EpochState {
    /// Returns the time that the clock would issue at this reading, or `None` if the latest is 2^64 - 1.
    #[tactic(auto, unfolding(crate::specs::EpochState::EpochStands))]
    pub fn would(&self, reading: u64) -> Option<u64>
        ensures { WhereStands self.now (λ r. result ≡ issue (last_issued r) reading) }
    {
        self.clock.would(reading)
    }

    /// Returns the time issued last, 0 before the first.
    #[tactic(auto, unfolding(crate::specs::EpochState::EpochStands))]
    pub fn last_issued(&self) -> u64
        ensures { WhereStands self.now (λ r. result ≡ last_issued r) }
    {
        self.clock.last()
    }

    /// Returns the latest time received from another replica `k`, 0 before the first.
    pub fn latest_from(&self, k: u32) -> u64
        requires { k < 15 }
        ensures { WhereStands self.now (λ r. k ≢ r.me → result ≡ latest_from r.received k) }
    {
        self.latest.of(k)
    }

    /// Returns the number of the next frame from replica `k`.
    #[tactic(auto, unfolding(crate::specs::EpochState::EpochStands))]
    pub fn next_from(&self, k: u32) -> u64
        requires { k < 15 }
        ensures { WhereStands self.now (λ r. result ≡ next_from r k) }
    {
        self.links.next_from(k)
    }

    /// Returns the number of frames pushed to replica `k`.
    #[tactic(auto, unfolding(crate::specs::EpochState::EpochStands))]
    pub fn pushed_to(&self, k: u32) -> u64
        requires { k < 15 }
        ensures { WhereStands self.now (λ r. result ≡ length (frames_to r k)) }
    {
        self.links.pushed_to(k)
    }

    /// Returns the first 64 unacknowledged frames to replica `k` with their numbers. `NoMemory` if memory runs out.
    #[tactic(auto, unfolding(crate::specs::EpochState::EpochStands))]
    pub fn due(&self, k: u32) -> Result<Frames, NoMemory>
        requires { k < 15 }
        ensures { IfOk result (λ frames. WhereStands self.now (λ r. frames ≡ take most_again (unacked r k))) }
    {
        self.links.due(k)
    }

    /// Returns whether a link of `me` to a member is at `MAX_LINK_FRAMES` or above.
    pub fn is_congested(&self, me: u32, members: &Members) -> bool
        ensures { WhereStands self.now (λ r. me ≡ r.me → members.now ≡ members_of r → result ≡ is_congested r) }
    {
        self.links.is_congested(me, members)
    }

    /// Returns the number of entries of `me` that are not executed; specified while the replica is active.
    pub fn own_unexecuted(&self, me: u32) -> u64
        requires { me < 15 }
        ensures { WhereStands self.now (λ r. me ≡ r.me → active r.log ≡ true → result ≡ length (own_unexecuted r)) }
    {
        self.pending.queue(me).len() as u64
    }

    /// Returns the least stamp with a pending acknowledgement, or `None` if none is pending.
    #[tactic(auto, unfolding(crate::specs::EpochState::EpochStands))]
    pub fn first_owed(&self) -> Option<Stamp>
        ensures { WhereStands self.now (λ r. result ≡ first_of r.owed) }
    {
        self.owed.first()
    }

    /// Returns the number of pending acknowledgements.
    #[tactic(auto, unfolding(crate::specs::EpochState::EpochStands))]
    pub fn owed_len(&self) -> u64
        ensures { WhereStands self.now (λ r. result ≡ length r.owed) }
    {
        self.owed.len()
    }

    /// Returns the stamp of the next entry to execute if it is ready, else `None`; specified while the replica is
    /// active.
    pub fn ready(&self, members: &Members, spec: &Members) -> Option<Stamp>
        ensures { WhereStands self.now (λ r. members.now ≡ members_of r → spec.now ≡ spec_of r → active r.log ≡ true → result ≡ ready_of r) }
    {
        self.pending.ready(&self.latest, members, spec)
    }
}
