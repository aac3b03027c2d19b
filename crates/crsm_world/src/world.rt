//! The world of a simulated cluster.

ghost use Rattle.std.specs.Prelude.{◌≡◌, ◌≢◌, ◌≤◌, ◌+◌, ◌<◌, ℕ, None, IfOk, IfErr, IsErrOf, IsErr, IfSome, OnOk, Some, List, [], ◌∷◌, ◌++◌, slice_get, is_some};
ghost use Rattle.crsm_disk.specs.Memory.{meaning_of};
ghost use Rattle.crsm_schedule.specs.Grammar.{FitsEvent};
ghost use Rattle.crsm_shell.specs.Shell.{ShellStands};
ghost use Rattle.crsm_shell.specs.Words.{disk_of};
ghost use Rattle.crsm_sim_network.specs.Packets.{NetworkStands};
ghost use Rattle.crsm_spec.specs.Acts.{Act};
ghost use Rattle.crsm_spec.specs.Moments.{act};
ghost use Rattle.crsm_spec.specs.Possible.{possible};
ghost use Rattle.crsm_spec.specs.Replica.{Replica};
ghost use Rattle.crsm_spec.specs.World as on_paper;
ghost use Rattle.crsm_world.specs.Doing.{act_of, bad_of};
ghost use Rattle.crsm_world.specs.Laws.{HasDone, IsLawful};
ghost use Rattle.crsm_world.specs.Machines.{MachinesStand};
ghost use Rattle.crsm_world.specs.World.{Holds, WorldStands, IsSpent, WhereHolds, WhereStands, WhereUp};

use crate::bad::Bad;
use crate::machines::Machines;
use crsm_base::{Lines, NoMemory};
use crsm_disk::MemDisk;
use crsm_law_rounds::rounds_are_bounded;
use crsm_law_runs::{answered_are_kept, decisions_always_agree, runs_are_safe};
use crsm_schedule::Event;
use crsm_shell::Shell;
use crsm_sim_network::Network;
use std::alloc::Global;
use std::mem;

/// A simulated cluster: its replicas, and every datagram that was sent.
#[derive(Drop)]
pub struct World {
    pub(crate) alloc: Global,
    pub(crate) sites: Machines,
    pub(crate) network: Network,
    pub(crate) is_spent: bool,
    /// Lines that were taken back: only their memory is used.
    spare: Lines,
}

impl World {
    /// Returns a cluster of `n` replicas that have just booted, and the lines of their boots. `NoMemory` if memory runs
    /// out.
    pub fn new(alloc: Global, n: u32) -> Result<(World, Lines), NoMemory>
        requires some { 1 ≤ n }
        requires most { n ≤ 15 }
        ensures world { IfOk result (λ made. WorldStands made.0 (on_paper.begin n)) }
        ensures lines { IfOk result (λ made. made.1 ≡ on_paper.first_lines n) }
        ensures done { IfOk result (λ made. HasDone made.0 n []) }
    {
        let sites = Machines::new(alloc, n)?;
        let mut world = World {
            alloc,
            sites,
            network: Network::new(alloc),
            // It is not usable before all have booted.
            is_spent: true,
            spare: Lines::new(alloc),
        };
        let lines = world.start_all(n)?;
        world.is_spent = false;
        Ok((world, lines))
    }

    /// Boots the replicas that a cluster of `n` begins with, in order, and returns the lines of their boots. `NoMemory`
    /// if memory runs out.
    fn start_all(&mut self, n: u32) -> Result<Lines, NoMemory>
        requires most { n ≤ 15 }
        requires sites { MachinesStand self.old.sites n [] }
        requires network { NetworkStands self.old.network [] 0 }
        ensures holds { OnOk result (Holds self.new (on_paper.begin n)) }
        ensures lines { IfOk result (λ lines. lines ≡ on_paper.first_lines n) }
    {
        let mut lines = Lines::new(self.alloc);
        for k in 0..n {
            let mut more = self.start(u64::from(k))?;
            lines.append(&mut more)?;
        }
        Ok(lines)
    }

    /// Executes an event and returns its lines. After an error other than `NoMemory` the world is unchanged; after
    /// `NoMemory` it is spent. The laws of a run hold for all events executed since the world was made.
    #[tactic(auto, unfolding(crate::specs::World::WorldStands, crate::specs::World::IsSpent))]
    pub fn step(&mut self, event: &Event) -> Result<Lines, Bad>
        requires { FitsEvent event.now }
        ensures possible { WhereStands self.old (λ v. IfOk result (λ lines. possible v (act_of event.now) ≡ None)) }
        ensures world { WhereStands self.old (λ v. IfOk result (λ lines. WorldStands self.new (act v (act_of event.now)).after)) }
        ensures lines { WhereStands self.old (λ v. IfOk result (λ lines. lines ≡ (act v (act_of event.now)).lines)) }
        ensures bad { WhereStands self.old (λ v. IfErr result (λ bad. bad ≢ Bad.NoMemory → possible v (act_of event.now) ≡ bad_of bad)) }
        ensures unchanged { WhereStands self.old (λ v. IfErr result (λ bad. bad ≢ Bad.NoMemory → WorldStands self.new v)) }
        ensures spent { IsErrOf result Bad.NoMemory → IsSpent self.new }
        ensures stays_spent { IsSpent self.old → IsErrOf result Bad.NoMemory }
        ensures done { (n : ℕ) (acts : List Act) → HasDone self.old n acts → IfOk result (λ lines. HasDone self.new n (acts ++ act_of event.now ∷ [])) }
        ensures laws { (n : ℕ) (acts : List Act) → HasDone self.old n acts → IfOk result (λ lines. IsLawful n (acts ++ act_of event.now ∷ [])) }
    {
        if self.is_spent {
            return Err(Bad::NoMemory);
        }
        if let Err(bad) = self.check(event) {
            self.is_spent = bad == Bad::NoMemory;
            return Err(bad);
        }
        let Ok(lines) = self.happen(event) else {
            // A caller must not continue from half an event.
            self.is_spent = true;
            return Err(Bad::NoMemory);
        };
        self.is_spent = false;
        runs_are_safe();
        answered_are_kept();
        decisions_always_agree();
        rounds_are_bounded();
        Ok(lines)
    }

    /// Takes back the lines of a step, so that the next step uses their memory.
    #[tactic(auto, unfolding(crate::specs::World::WorldStands, crate::specs::World::IsSpent))]
    pub fn take_back(&mut self, lines: Lines)
        ensures stands { WhereStands self.old (λ v. WorldStands self.new v) }
        ensures stays_spent { IsSpent self.old → IsSpent self.new }
    {
        self.spare = lines;
    }

    /// Returns empty lines with the memory of those that were taken back.
    pub(crate) fn no_lines(&mut self) -> Lines
        ensures none { result ≡ [] }
        ensures holds { WhereHolds self.old (λ v. Holds self.new v) }
    {
        let mut lines = mem::replace(&mut self.spare, Lines::new(self.alloc));
        lines.clear();
        lines
    }

    /// Returns the shell of a replica that is up, or `None` if it is down or does not exist. Its core is that of the
    /// replica, and its disk has the replica's log.
    #[tactic(auto, unfolding(crate::specs::World::WorldStands))]
    pub fn shell(&self, replica: u32) -> Option<&Shell<MemDisk>>
        ensures up { WhereStands self.now (λ v. is_some result ≡ on_paper.is_up_at v replica) }
        ensures stands { IfSome result (λ shell. WhereUp self.now replica (λ r. ShellStands shell.now (meaning_of (disk_of shell.now)) r.log r [])) }
    {
        match self.sites.get(u64::from(replica)) {
            Some(machine) => machine.shell(),
            None => None,
        }
    }

    /// Returns the final line of each replica. The laws of a run hold for the events of the world. `NoMemory` if memory
    /// runs out.
    #[tactic(auto, unfolding(crate::specs::World::WorldStands, crate::specs::World::IsSpent, crsm_spec::specs::World::finals))]
    pub fn finals(&self) -> Result<Lines, NoMemory>
        ensures lines { WhereStands self.now (λ v. IfOk result (λ lines. lines ≡ on_paper.finals v)) }
        ensures laws { (n : ℕ) (acts : List Act) → HasDone self.now n acts → IfOk result (λ lines. IsLawful n acts) }
        ensures spent { IsSpent self.now → IsErr result }
    {
        if self.is_spent {
            return Err(NoMemory);
        }
        let lines = self.sites.finals()?;
        runs_are_safe();
        answered_are_kept();
        decisions_always_agree();
        rounds_are_bounded();
        Ok(lines)
    }
}
