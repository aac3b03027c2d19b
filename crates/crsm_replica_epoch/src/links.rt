//! The links with all other replicas.

ghost use Rattle.std.specs.Prelude.{◌≡◌, ◌<◌, ◌≤◌, nat_le, ◌∷◌, [], length, take, IfOk};
ghost use Rattle.std.specs.List.{list_any};
ghost use Rattle.crsm_base.specs.Limits.{most_again, most_frames};
ghost use Rattle.crsm_spec.specs.Replica.{Replica, last_issued, latest_from, frames_to, next_from, unacked, is_congested};
ghost use Rattle.crsm_replica_epoch.specs.Linked.{LinksStand, others_of, pushed_at};

use crate::link::Link;
use crsm_base::{InEpoch, MAX_LINK_FRAMES, Members, NoMemory};
use crsm_link::Frames;
use std::alloc::Global;

/// The links with each of 15 replicas, by its number. The one with the replica itself is unused.
#[derive(Drop)]
pub(crate) struct Links {
    alloc: Global,
    links: [Link; 15],
}

impl Links {
    /// Returns new links.
    pub(crate) fn new(alloc: Global) -> Links
        ensures { (r : Replica) → r.pushed ≡ [] → r.acked ≡ [] → r.taken ≡ [] → LinksStand result r }
    {
        Links {
            alloc,
            links: [
                Link::new(alloc),
                Link::new(alloc),
                Link::new(alloc),
                Link::new(alloc),
                Link::new(alloc),
                Link::new(alloc),
                Link::new(alloc),
                Link::new(alloc),
                Link::new(alloc),
                Link::new(alloc),
                Link::new(alloc),
                Link::new(alloc),
                Link::new(alloc),
                Link::new(alloc),
                Link::new(alloc),
            ],
        }
    }

    /// Returns the number of the next frame from replica `k`.
    pub(crate) fn next_from(&self, k: u32) -> u64
        requires { k < 15 }
        ensures { (r : Replica) → LinksStand self.now r → result ≡ next_from r k }
    {
        self.links[k as usize].receiver.next()
    }

    /// Returns the number of frames pushed to replica `k`.
    pub(crate) fn pushed_to(&self, k: u32) -> u64
        requires { k < 15 }
        ensures { (r : Replica) → LinksStand self.now r → result ≡ length (frames_to r k) }
    {
        self.links[k as usize].sender.count()
    }

    /// Returns the first 64 unacknowledged frames to replica `k` with their numbers. `NoMemory` if memory runs out.
    pub(crate) fn due(&self, k: u32) -> Result<Frames, NoMemory>
        requires { k < 15 }
        ensures { IfOk result (λ frames. (r : Replica) → LinksStand self.now r → frames ≡ take most_again (unacked r k)) }
    {
        self.links[k as usize].sender.due()
    }

    /// Returns whether the link to replica `k` is at `MAX_LINK_FRAMES` or above.
    fn is_full(&self, k: u32) -> bool
        requires { k < 15 }
        ensures { (r : Replica) → LinksStand self.now r → result ≡ nat_le most_frames (length (unacked r k)) }
    {
        self.links[k as usize].sender.len() >= MAX_LINK_FRAMES as u64
    }

    /// Returns whether a link of `me` to a member is at `MAX_LINK_FRAMES` or above.
    pub(crate) fn is_congested(&self, me: u32, members: &Members) -> bool
        ensures { (r : Replica) → LinksStand self.now r → result ≡ list_any (λ k. nat_le most_frames (length (unacked r k))) (others_of me members.now) }
    {
        for member in members.as_slice() {
            if *member != me && self.is_full(*member) {
                return true;
            }
        }
        false
    }

    /// Pushes a payload with this time, which is above the one before, to each member but `me`. `NoMemory` if memory
    /// runs out.
    pub(crate) fn push(
        &mut self,
        me: u32,
        members: &Members,
        time: u64,
        payload: &InEpoch,
    ) -> Result<(), NoMemory>
        ensures { IfOk result (λ _. (r : Replica) → LinksStand self.old r → last_issued r < time → LinksStand self.new (pushed_at time payload.now (others_of me members.now) r)) }
    {
        for member in members.as_slice() {
            if *member != me {
                self.links[*member as usize].push(payload.copy(self.alloc)?, time)?;
            }
        }
        Ok(())
    }

    /// Takes the next frame of replica `k`, whose time is above k's latest.
    pub(crate) fn take_next(&mut self, k: u32, time: u64)
        requires { k < 15 }
        ensures { (r : Replica) → LinksStand self.old r → latest_from r.received k < time →
            LinksStand self.new (record r { taken = k ∷ r.taken; received = (k, time) ∷ r.received }) }
    {
        self.links[k as usize].take_next(time);
    }

    /// Removes the frames to `k` below the number `next`, which are acknowledged.
    pub(crate) fn acked(&mut self, k: u32, next: u64)
        requires { k < 15 }
        ensures { (r : Replica) → LinksStand self.old r → next ≤ length (frames_to r k) → LinksStand self.new (record r { acked = (k, next) ∷ r.acked }) }
    {
        self.links[k as usize].acked(next);
    }
}
