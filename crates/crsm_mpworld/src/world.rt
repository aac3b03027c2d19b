//! The world of a simulated store with a leader.

ghost use Rattle.std.specs.Prelude.{◌≡◌, ◌≢◌, ◌≤◌, None, [], IfOk, IfErr, IsErr, IsErrOf};
ghost use Rattle.crsm_schedule.specs.Grammar.{FitsEvent};
ghost use Rattle.crsm_mpspec.specs.Moments.{act};
ghost use Rattle.crsm_mpspec.specs.Possible.{possible};
ghost use Rattle.crsm_mpspec.specs.World as on_paper;
ghost use Rattle.crsm_mpworld.specs.Doing.{act_of, cause_of};
ghost use Rattle.crsm_mpworld.specs.World.{IsSpent, MpWorldStands, WhereStands, WhereHolds, Holds};

use crate::network::MpNetwork;
use crate::site::MpStep;
use crate::sites::Sites;
use crsm_base::NoMemory;
use crsm_mpspec::{MpBad, MpLines};
use crsm_schedule::Event;
use std::alloc::Global;
use std::mem;

/// A simulated store with a leader: its replicas, and every message that was sent.
#[derive(Drop)]
pub struct MpWorld {
    pub(crate) alloc: Global,
    /// Number of replicas.
    pub(crate) n: u32,
    pub(crate) sites: Sites,
    pub(crate) network: MpNetwork,
    is_spent: bool,
    /// Lines that were taken back: only their memory is used.
    spare: MpLines,
    /// The lists of the last `settle`: only their memory is used.
    pub(crate) spare_ups: Vec<bool>,
    pub(crate) spare_due: Vec<u64>,
    /// The last step: all its output was sent or is lost, and its memory is used again.
    pub(crate) made: MpStep,
}

impl MpWorld {
    /// Returns a world of `n` replicas that have just booted, and the lines of their boots. `NoMemory` if memory runs
    /// out.
    pub fn new(alloc: Global, n: u32) -> Result<(MpWorld, MpLines), NoMemory>
        requires some { 1 ≤ n }
        requires most { n ≤ 15 }
        ensures world { IfOk result (λ made. MpWorldStands made.0 (on_paper.begin n)) }
        ensures lines { IfOk result (λ made. made.1 ≡ on_paper.first_lines n) }
    {
        let sites = Sites::new(alloc, n)?;
        let mut world = MpWorld {
            alloc,
            n,
            sites,
            network: MpNetwork::new(alloc),
            // It is not usable before all have booted.
            is_spent: true,
            spare: MpLines::new(alloc),
            spare_ups: Vec::new(alloc),
            spare_due: Vec::new(alloc),
            made: MpStep::new(alloc),
        };
        let mut lines = MpLines::new(alloc);
        for k in 0..n {
            let mut more = world.start(u64::from(k))?;
            lines.append(&mut more)?;
        }
        world.is_spent = false;
        Ok((world, lines))
    }

    /// Executes an event and returns its lines. After an error other than `NoMemory` the world is unchanged; after
    /// `NoMemory` it is spent.
    #[tactic(auto, unfolding(crate::specs::World::MpWorldStands, crate::specs::World::IsSpent))]
    pub fn step(&mut self, event: &Event) -> Result<MpLines, MpBad>
        requires { FitsEvent event.now }
        ensures possible { WhereStands self.old (λ v. IfOk result (λ lines. possible v (act_of event.now) ≡ None)) }
        ensures world { WhereStands self.old (λ v. IfOk result (λ lines. MpWorldStands self.new (act v (act_of event.now)).after)) }
        ensures lines { WhereStands self.old (λ v. IfOk result (λ lines. lines ≡ (act v (act_of event.now)).lines)) }
        ensures bad { WhereStands self.old (λ v. IfErr result (λ bad. bad ≢ MpBad.NoMemory → possible v (act_of event.now) ≡ cause_of bad)) }
        ensures unchanged { WhereStands self.old (λ v. IfErr result (λ bad. bad ≢ MpBad.NoMemory → MpWorldStands self.new v)) }
        ensures spent { IsErrOf result MpBad.NoMemory → IsSpent self.new }
        ensures stays_spent { IsSpent self.old → IsErrOf result MpBad.NoMemory }
    {
        if self.is_spent {
            return Err(MpBad::NoMemory);
        }
        if let Err(bad) = self.check(event) {
            self.is_spent = bad == MpBad::NoMemory;
            return Err(bad);
        }
        let Ok(lines) = self.happen(event) else {
            // A caller must not continue from half an event.
            self.is_spent = true;
            return Err(MpBad::NoMemory);
        };
        self.is_spent = false;
        Ok(lines)
    }

    /// Takes back the lines of a step, so that the next step uses their memory.
    #[tactic(auto, unfolding(crate::specs::World::MpWorldStands, crate::specs::World::IsSpent))]
    pub fn take_back(&mut self, lines: MpLines)
        ensures stands { WhereStands self.old (λ v. MpWorldStands self.new v) }
        ensures stays_spent { IsSpent self.old → IsSpent self.new }
    {
        self.spare = lines;
    }

    /// Returns empty lines with the memory of those that were taken back.
    pub(crate) fn no_lines(&mut self) -> MpLines
        ensures none { result ≡ [] }
        ensures holds { WhereHolds self.old (λ v. Holds self.new v) }
        ensures network { self.new.network ≡ self.old.network }
    {
        let mut lines = mem::replace(&mut self.spare, MpLines::new(self.alloc));
        lines.clear();
        lines
    }

    /// Returns the final line of each replica. `NoMemory` if memory runs out.
    #[tactic(auto, unfolding(crate::specs::World::MpWorldStands, crate::specs::World::IsSpent, crsm_mpspec::specs::World::finals))]
    pub fn finals(&self) -> Result<MpLines, NoMemory>
        ensures lines { WhereStands self.now (λ v. IfOk result (λ lines. lines ≡ on_paper.finals v)) }
        ensures spent { IsSpent self.now → IsErr result }
    {
        if self.is_spent {
            return Err(NoMemory);
        }
        let lines = self.sites.finals()?;
        Ok(lines)
    }
}
