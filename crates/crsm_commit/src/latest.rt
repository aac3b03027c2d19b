//! The latest time of each replica.

ghost use Rattle.std.specs.Prelude.{◌≡◌, ℕ, ◌^◌, ◌<◌, ◌≤◌, [], ◌∷◌, List, nat_le};
ghost use Rattle.std.specs.List.{list_all};
ghost use Rattle.crsm_spec.specs.Replica.{latest_from};
ghost use Rattle.crsm_spec.specs.Ready.{reached};

use crsm_base::Members;

/// The latest time received from each replica, or issued by this one, in units of their clocks.
#[derive(Debug, Drop)]
pub struct Latest {
    /// By replica number; 0 before the first.
    times: [u64; 15],
}

impl Latest {
    ghost use Rattle.crsm_commit.specs.Received.{LatestStands};

    /// Returns the times before any was received.
    pub fn new() -> Latest
        ensures { LatestStands result [] }
    {
        Latest { times: [0; 15] }
    }

    /// Records a time received from replica `k`. An older one changes nothing.
    pub fn receive(&mut self, k: u32, time: u64)
        requires { k < 15 }
        ensures { (received : List (ℕ × ℕ)) → LatestStands self.old received → LatestStands self.new ((k, time) ∷ received) }
    {
        let k = k as usize;
        if time > self.times[k] {
            self.times[k] = time;
        }
    }

    /// Returns the latest time of replica `k`, 0 if none was received.
    pub fn of(&self, k: u32) -> u64
        requires { k < 15 }
        ensures { (received : List (ℕ × ℕ)) → LatestStands self.now received → result ≡ latest_from received k }
    {
        self.times[k as usize]
    }

    /// Returns the least of the members' latest times.
    pub fn least(&self, members: &Members) -> u64
        ensures { (received : List (ℕ × ℕ)) (time : ℕ) → LatestStands self.now received → 1 ≤ time → time < 2 ^ 64 →
            nat_le time result ≡ list_all (reached received time) members.now }
    {
        let mut least = u64::MAX;
        for member in members.as_slice() {
            least = least.min(self.of(*member));
        }
        least
    }
}
