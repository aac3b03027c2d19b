//! Entries that are not executed yet, and when the least of them is ready.

ghost use Rattle.std.specs.Prelude.{◌≡◌, ℕ, ◌<◌, Bool, true, ◌==◌, ◌&&◌, not, [], ◌∷◌, List, map, filter, find, is_some, OnOk, OnErr, bit_or, ◌^◌, min};
ghost use Rattle.std.specs.List.{AllByRecursion};
ghost use Rattle.crsm_base.specs.declared.Stamp.{Stamp};
ghost use Rattle.crsm_base.specs.declared.Entry.{Entry};
ghost use Rattle.crsm_base.specs.Order.{stamp_eq};
ghost use Rattle.crsm_spec.specs.Log.{with_entry};
ghost use Rattle.crsm_spec.specs.Ready.{votes_for};
ghost use Rattle.crsm_commit.specs.Least.{lesser_of, IsLeastFirst};
ghost use Rattle.crsm_commit.specs.Masks.{mask_of};
ghost use Rattle.crsm_commit.specs.Waiting.{stamp_of, is_at, without_entry};

use crate::latest::Latest;
use crate::stamps::Stamps;
use crate::votes::Votes;
use crsm_base::{Entry, Members, NoMemory, Stamp, majority};
use std::alloc::Global;

/// Number of queues: one for each replica, and the last for any other origin.
const QUEUES: usize = 16;

/// The entries that were added and not taken, by their stamps, and which replicas have logged which stamp.
///
/// Some stamps are tracked: for these the votes are complete. A stamp is not tracked any more once its entry is taken,
/// so later votes for it need not be counted.
#[derive(Drop)]
pub struct Pending {
    queues: [Stamps; 16],
    /// The least stamp of all queues, which each step asks for.
    first: Option<Stamp>,
    votes: Votes,
}

impl Pending {
    ghost use Rattle.crsm_commit.specs.Pending.{PendingStands, WhereHeard, WhereStands, first_ready};

    /// Returns the state without entries and votes.
    pub fn new(alloc: Global) -> Pending
        ensures { (tracked : Stamp → Bool) → PendingStands result tracked [] [] }
    {
        Pending {
            queues: [
                Stamps::new(alloc),
                Stamps::new(alloc),
                Stamps::new(alloc),
                Stamps::new(alloc),
                Stamps::new(alloc),
                Stamps::new(alloc),
                Stamps::new(alloc),
                Stamps::new(alloc),
                Stamps::new(alloc),
                Stamps::new(alloc),
                Stamps::new(alloc),
                Stamps::new(alloc),
                Stamps::new(alloc),
                Stamps::new(alloc),
                Stamps::new(alloc),
                Stamps::new(alloc),
            ],
            first: None,
            votes: Votes::new(alloc),
        }
    }

    /// Adds an entry that was logged. `NoMemory` if memory runs out; nothing has changed then.
    pub fn add(&mut self, entry: &Entry) -> Result<(), NoMemory>
        ensures ok { OnOk result (WhereStands self.old (λ tracked waiting votes. PendingStands self.new tracked (with_entry entry.now waiting) votes)) }
        ensures err { OnErr result ((tracked : Stamp → Bool) (waiting : List Entry) (votes : List (Stamp × ℕ)) → PendingStands self.old tracked waiting votes → PendingStands self.new tracked waiting votes) }
    {
        let place = queue_of(entry.stamp.origin);
        self.queues[place].add(entry.stamp)?;
        self.first = lesser(self.first, Some(entry.stamp));
        Ok(())
    }

    /// Records that replica `k` has logged the stamp, whether its entry was added or not. `NoMemory` if memory runs
    /// out; nothing has changed then.
    pub fn voted(&mut self, stamp: Stamp, k: u32) -> Result<(), NoMemory>
        requires { k < 15 }
        ensures ok { OnOk result (WhereStands self.old (λ tracked waiting votes. PendingStands self.new tracked waiting ((stamp, k) ∷ votes))) }
        ensures err { OnErr result ((tracked : Stamp → Bool) (waiting : List Entry) (votes : List (Stamp × ℕ)) → PendingStands self.old tracked waiting votes → PendingStands self.new tracked waiting votes) }
    {
        let mask = with_vote(self.votes.of(stamp), k);
        self.votes.set(stamp, mask)?;
        Ok(())
    }

    /// Returns the stamp of the next entry to execute if it is ready, else `None`. It is ready when a majority of
    /// `spec` has logged it, each member's latest time has reached its time, and no pending entry has a lesser stamp.
    pub fn ready(&self, latest: &Latest, members: &Members, spec: &Members) -> Option<Stamp>
        ensures { WhereHeard self.now latest.now (λ tracked waiting votes received. AllByRecursion (λ e. tracked e.stamp ≡ true) waiting → result ≡ first_ready spec.now members.now received votes waiting) }
    {
        let stamp = self.first?;
        // This is the condition that mostly fails, so it is tested first.
        if stamp.time.max(1) > latest.least(members) {
            return None;
        }
        let votes = count_in(self.votes.of(stamp), spec);
        if votes >= majority(spec.count()) {
            Some(stamp)
        } else {
            None
        }
    }

    /// Removes the entry of this stamp, which is not tracked from then on, and returns whether one was pending.
    pub fn take(&mut self, stamp: Stamp) -> bool
        ensures entry { WhereStands self.old (λ tracked waiting votes. result ≡ is_some (find (is_at stamp) waiting)) }
        ensures rest { WhereStands self.old (λ tracked waiting votes. PendingStands self.new (λ s. tracked s && not (stamp_eq stamp s)) (without_entry stamp waiting) votes) }
    {
        let place = queue_of(stamp.origin);
        let taken = self.queues[place].remove(stamp).is_some();
        self.first = least_first(&self.queues);
        self.votes.forget(stamp);
        taken
    }

    /// Returns the stamps of the pending entries of an origin, by ascending time.
    pub fn queue(&self, origin: u32) -> &[Stamp]
        requires { origin < 15 }
        ensures { WhereStands self.now (λ tracked waiting votes. result.now ≡ map stamp_of (filter (λ e. e.stamp.origin == origin) waiting)) }
    {
        self.queues[origin as usize].as_slice()
    }
}

/// Returns the index of an origin's queue.
fn queue_of(origin: u32) -> usize
    ensures { result ≡ min origin 15 }
{
    (origin as usize).min(QUEUES - 1)
}

/// Returns the mask with the bit of replica `k` set.
fn with_vote(mask: u16, k: u32) -> u16
    requires { k < 15 }
    ensures { result ≡ bit_or mask (2 ^ k) }
{
    mask | (1 << k)
}

/// Returns how many of these replicas have their bit set in the mask.
fn count_in(mask: u16, replicas: &Members) -> u32
    ensures { (votes : List (Stamp × ℕ)) (s : Stamp) → mask ≡ mask_of votes s → result ≡ votes_for replicas.now votes s }
{
    let mut count = 0;
    for replica in replicas.as_slice() {
        if (mask >> *replica) % 2 == 1 {
            count += 1;
        }
    }
    count
}

/// Returns the lesser of two stamps, the only one if one is missing.
fn lesser(a: Option<Stamp>, b: Option<Stamp>) -> Option<Stamp>
    ensures { result ≡ lesser_of a b }
{
    match (a, b) {
        (Some(first), Some(second)) => Some(if second < first { second } else { first }),
        (Some(first), None) => Some(first),
        (None, second) => second,
    }
}

/// Returns the least of the queues' first stamps, or `None` if all are empty.
fn least_first(queues: &[Stamps; 16]) -> Option<Stamp>
    ensures { IsLeastFirst result queues.now 16 }
{
    let mut least = None;
    for place in 0..QUEUES {
        least = lesser(least, queues[place].as_slice().first().copied());
    }
    least
}
