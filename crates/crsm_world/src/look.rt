//! The view of a world for generating its events.

ghost use Rattle.std.specs.Prelude.{◌≡◌, ◌<◌, ◌==◌, ◌&&◌, ◌||◌, ℕ, Bool, length};
ghost use Rattle.crsm_sim_network.specs.Packets.{Receives};
ghost use Rattle.crsm_spec.specs.World as on_paper;
ghost use Rattle.crsm_world.specs.Machines.{WhereMachinesStand, is_up_in};
ghost use Rattle.crsm_world.specs.Seen.{is_receiver};
ghost use Rattle.crsm_world.specs.World.{WhereStands};

use crate::machines::Machines;
use crate::world::World;
use crsm_base::MAX_REPLICAS;
use crsm_sim_generator::Look;
use crsm_sim_network::Receivers;

impl Machines {
    /// Returns the number of replicas that have booted at least once.
    pub fn number(&self) -> u32
        ensures { WhereMachinesStand self.now (λ n places. result ≡ length places) }
    {
        // There are at most 15.
        match u32::try_from(self.count()) {
            Ok(number) => number,
            Err(_) => MAX_REPLICAS,
        }
    }

    /// Adds a replica, if it is up.
    fn add_up(&self, k: u32, receivers: &mut Receivers)
        requires { k < 15 }
        ensures { WhereMachinesStand self.now (λ n places. (test : ℕ → Bool) → Receives receivers.old test → Receives receivers.new (λ j. test j || (j == k && is_up_in places k))) }
    {
        if self.is_up(u64::from(k)) {
            receivers.add(k);
        }
    }

    /// Returns the replicas that are up, as receivers.
    pub fn receivers(&self) -> Receivers
        ensures { WhereMachinesStand self.now (λ n places. Receives result (is_up_in places)) }
    {
        let mut receivers = Receivers::none();
        for k in 0..MAX_REPLICAS {
            self.add_up(k, &mut receivers);
        }
        receivers
    }
}

impl World {
    /// Returns whether the world's size is at its limit or above, so that no event is possible.
    #[tactic(auto, unfolding(crate::specs::World::WorldStands, crsm_spec::specs::World::is_full))]
    pub fn is_full(&self) -> bool
        ensures { WhereStands self.now (λ v. result ≡ on_paper.is_full v) }
    {
        self.network.is_full()
    }

    /// Returns all receivers, or with `up` those that are up.
    #[tactic(auto, unfolding(crate::specs::World::WorldStands))]
    fn receivers(&self, up: bool) -> Receivers
        ensures { WhereStands self.now (λ v. Receives result (is_receiver up v)) }
    {
        if up {
            self.sites.receivers()
        } else {
            Receivers::any()
        }
    }
}

impl Look for World {
    ghost use Rattle.crsm_world.specs.Seen.{IsSeenAs};

    ghost shows = { IsSeenAs };

    fn replicas(&self) -> u32 {
        self.sites.number()
    }

    fn is_up(&self, replica: u32) -> bool {
        self.sites.is_up(u64::from(replica))
    }

    fn fresh(&self, up: bool) -> u64 {
        self.network.count_of(false, &self.receivers(up))
    }

    fn nth_fresh(&self, j: u64, up: bool) -> u64 {
        self.network.nth_of(false, &self.receivers(up), j)
    }

    fn used(&self) -> u64 {
        self.network.count_of(true, &self.receivers(true))
    }

    fn nth_used(&self, j: u64) -> u64 {
        self.network.nth_of(true, &self.receivers(true), j)
    }
}
