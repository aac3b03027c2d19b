//! Changes of an epoch's state other than by records.

ghost use Rattle.std.specs.Prelude.{◌≡◌, ◌<◌, ◌≤◌, List, ◌∷◌, length, IfOk};
ghost use Rattle.crsm_base.specs.declared.Stamp.{Stamp};
ghost use Rattle.crsm_spec.specs.Log.{last_stamp};
ghost use Rattle.crsm_spec.specs.Frames.{with_stamp};
ghost use Rattle.crsm_spec.specs.Replica.{Replica, other_members, latest_from, frames_to};
ghost use Rattle.crsm_replica_epoch.specs.EpochState.{EpochStands, WhereIssuing, WhereStands};
ghost use Rattle.crsm_replica_epoch.specs.Linked.{pushed_at};

use crate::records::is_above;
use crate::state::EpochState;
use crsm_base::{InEpoch, Members, NoMemory, Stamp};

impl EpochState {
    /// Counts the vote of replica `k` for the stamp. `last` is the stamp of the last executed entry. `NoMemory` if
    /// memory runs out.
    pub fn count_vote(&mut self, stamp: Stamp, k: u32, last: Option<Stamp>) -> Result<(), NoMemory>
        requires { k < 15 }
        ensures { IfOk result (λ _. WhereStands self.old (λ r. last ≡ last_stamp r.log →
            EpochStands self.new (record r { votes = (stamp, k) ∷ r.votes }))) }
    {
        if is_above(last, stamp) {
            self.pending.voted(stamp, k)?;
        }
        Ok(())
    }

    /// Issues `time`, which the clock would issue at some reading, and pushes a payload to each other member.
    /// `NoMemory` if memory runs out.
    pub fn push_at(
        &mut self,
        time: u64,
        me: u32,
        members: &Members,
        payload: &InEpoch,
    ) -> Result<(), NoMemory>
        requires { me < 15 }
        ensures { IfOk result (λ _. WhereIssuing self.old time me members.now (λ r. EpochStands self.new (pushed_at time payload.now (other_members r) r))) }
    {
        self.clock.issue(time);
        self.latest.receive(me, time);
        self.links.push(me, members, time, payload)?;
        Ok(())
    }

    /// Takes the next frame of another replica `k`, and records its time, which is above k's latest. It allocates
    /// nothing.
    pub fn take_next(&mut self, k: u32, time: u64)
        requires { k < 15 }
        ensures { WhereStands self.old (λ r. latest_from r.received k < time →
            EpochStands self.new (record r { taken = k ∷ r.taken; received = (k, time) ∷ r.received })) }
    {
        self.links.take_next(k, time);
        self.latest.receive(k, time);
    }

    /// Removes the frames to `k` below the number `next`, which are acknowledged.
    pub fn acked(&mut self, k: u32, next: u64)
        requires { k < 15 }
        ensures { WhereStands self.old (λ r. next ≤ length (frames_to r k) → EpochStands self.new (record r { acked = (k, next) ∷ r.acked })) }
    {
        self.links.acked(k, next);
    }

    /// Adds a pending acknowledgement. `NoMemory` if memory runs out.
    pub fn owe(&mut self, stamp: Stamp) -> Result<(), NoMemory>
        ensures { IfOk result (λ _. WhereStands self.old (λ r. EpochStands self.new (record r { owed = with_stamp stamp r.owed }))) }
    {
        self.owed.add(stamp)?;
        Ok(())
    }

    /// Removes the oldest pending acknowledgement.
    pub fn paid(&mut self)
        ensures { (r : Replica) (s : Stamp) (ss : List Stamp) → EpochStands self.old r → r.owed ≡ s ∷ ss → EpochStands self.new (record r { owed = ss }) }
    {
        if let Some(stamp) = self.owed.first() {
            self.owed.done(stamp);
        }
    }
}
