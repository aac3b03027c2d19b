//! Random choices among the replicas and datagrams of a world.

ghost use Rattle.std.specs.Prelude.{◌≡◌, ◌++◌, ◌∷◌, [], IfOk, OnOk, if◌then◌else◌, length, slice_get};
ghost use Rattle.crsm_sim_generator.specs.Drawing.{one_of};
ghost use Rattle.crsm_sim_generator.specs.View.{View, down_replicas, fresh_seen, fresh_to_up, is_up_in, up_replicas, used_to_up};

use crate::drawing::Drawing;
use crate::look::Look;
use crsm_base::NoMemory;
use std::alloc::Global;

/// A fresh datagram is chosen among at most this number of oldest ones.
const OLDEST: u64 = 8;

/// Adds the number of a replica, if it is up.
fn add_up<L: Look>(world: &L, replica: u32, ups: &mut Vec<u32>) -> Result<(), NoMemory>
    ensures { (v : View) → L.shows world.now v → OnOk result (ups.new.items ≡ ups.old.items ++ (if is_up_in v replica then replica ∷ [] else [])) }
{
    if world.is_up(replica) {
        ups.push(replica)?;
    }
    Ok(())
}

/// Returns the numbers of the replicas that are up, in ascending order.
pub(crate) fn up_replicas<L: Look>(alloc: Global, world: &L) -> Result<Vec<u32>, NoMemory>
    ensures { (v : View) → L.shows world.now v → IfOk result (λ ups. ups.items ≡ up_replicas v) }
{
    let mut ups = Vec::new(alloc);
    for replica in 0..world.replicas() {
        add_up(world, replica, &mut ups)?;
    }
    Ok(ups)
}

/// Returns the least replica that is up, or `None` if all are down.
pub(crate) fn least_up<L: Look>(world: &L) -> Option<u32>
    ensures { (v : View) → L.shows world.now v → result ≡ slice_get (up_replicas v) 0 }
{
    for replica in 0..world.replicas() {
        if world.is_up(replica) {
            return Some(replica);
        }
    }
    None
}

/// Returns the least replica that is down, or `None` if all are up.
pub(crate) fn least_down<L: Look>(world: &L) -> Option<u32>
    ensures { (v : View) → L.shows world.now v → result ≡ slice_get (down_replicas v) 0 }
{
    for replica in 0..world.replicas() {
        if !world.is_up(replica) {
            return Some(replica);
        }
    }
    None
}

/// Returns the number of the oldest fresh datagram whose receiver is up, or `None` if there is none.
pub(crate) fn oldest_fresh<L: Look>(world: &L) -> Option<u64>
    ensures { (v : View) → L.shows world.now v → result ≡ slice_get (fresh_to_up v) 0 }
{
    if world.fresh(true) == 0 {
        return None;
    }
    Some(world.nth_fresh(0, true))
}

impl Drawing {
    /// Draws one of the oldest fresh datagrams; with `up`, of those whose receiver is up. `None` if there is none.
    #[tactic(auto, unfolding(crate::specs::Drawing::one_of))]
    pub(crate) fn one_fresh<L: Look>(&mut self, world: &L, up: bool) -> Option<u64>
        ensures number { (v : View) → L.shows world.now v → result ≡ (one_of 8 (fresh_seen up v) self.old).0 }
        ensures state { (v : View) → L.shows world.now v → self.new ≡ (one_of 8 (fresh_seen up v) self.old).1 }
    {
        let count = world.fresh(up);
        if count == 0 {
            return None;
        }
        let j = self.draw(count.min(OLDEST));
        Some(world.nth_fresh(j, up))
    }

    /// Draws one of the used datagrams whose receiver is up. `None` if there is none.
    #[tactic(auto, unfolding(crate::specs::Drawing::one_of))]
    pub(crate) fn one_used<L: Look>(&mut self, world: &L) -> Option<u64>
        ensures number { (v : View) → L.shows world.now v → result ≡ (one_of (length (used_to_up v)) (used_to_up v) self.old).0 }
        ensures state { (v : View) → L.shows world.now v → self.new ≡ (one_of (length (used_to_up v)) (used_to_up v) self.old).1 }
    {
        let count = world.used();
        if count == 0 {
            return None;
        }
        let j = self.draw(count);
        Some(world.nth_used(j))
    }
}
