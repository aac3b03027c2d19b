//! The simulated replicas.

ghost use Rattle.std.specs.Prelude.{◌≡◌, ◌≤◌, [], Some, length, map, replicate, slice_get, slice_set, IfOk, IfSome, IsTrue, OnOk};
ghost use Rattle.std.specs.List.{AllByRecursion, enumerate_from};
ghost use Rattle.crsm_mpreplica.specs.Fitting.{FitsInput};
ghost use Rattle.crsm_mpspec.specs.Log.{Log};
ghost use Rattle.crsm_mpspec.specs.Step as steps;
ghost use Rattle.crsm_mpspec.specs.World as on_paper;
ghost use Rattle.crsm_mpworld.specs.Fits.{FitsSend};

use crate::place::{BootSize, Site};
use crate::site::MpStep;
use crsm_base::NoMemory;
use crsm_mpspec::{MpInput, MpLines};
use std::alloc::Global;

/// The simulated replicas, by number.
#[derive(Drop)]
pub(crate) struct Sites {
    alloc: Global,
    items: Vec<Site>,
    ghost few: { length items.items ≤ 15 },
}

impl Sites {
    ghost use Rattle.crsm_mpworld.specs.Sites.{BootsTo, IsOne, StandFor, StepsTo, WhereDown, WherePlace, WhereSitesStand, WhereUp, is_up_in, up_in};

    /// Returns `n` replicas that are down and have empty disks.
    pub(crate) fn new(alloc: Global, n: u32) -> Result<Sites, NoMemory>
        requires { n ≤ 15 }
        ensures { IfOk result (λ sites. StandFor sites n (replicate n (on_paper.Site.Down []))) }
    {
        let mut items = Vec::new(alloc);
        for me in 0..n {
            items.push(Site::new(alloc, me, n)?)?;
        }
        Ok(Sites { alloc, items })
    }

    /// Returns the number of replicas.
    pub(crate) fn count(&self) -> u64
        ensures { WhereSitesStand self.now (λ n places. result ≡ length places) }
    {
        self.items.len() as u64
    }

    /// Returns whether a replica is up.
    pub(crate) fn is_up(&self, k: u64) -> bool
        ensures up { WhereSitesStand self.now (λ n places. result ≡ is_up_in places k) }
        ensures there { IsTrue result → IsOne self.now k }
    {
        match self.items.get(k as usize) {
            Some(site) => site.is_up(),
            None => false,
        }
    }

    /// Returns `k` as the number of a replica that is up, or `None` if it is not up.
    pub(crate) fn up(&self, k: u64) -> Option<u32>
        ensures up { WhereSitesStand self.now (λ n places. result ≡ up_in places k) }
        ensures there { IfSome result (IsOne self.now) }
    {
        if !self.is_up(k) {
            return None;
        }
        Some(k as u32)
    }

    /// Returns `k` as the number of a replica that is down, or `None` if it is up or there is no such replica.
    pub(crate) fn down(&self, k: u64) -> Option<u32>
        ensures down { WhereSitesStand self.now (λ n places. (log : Log) → slice_get places k ≡ Some (on_paper.Site.Down log) → result ≡ Some k) }
        ensures there { IfSome result (IsOne self.now) }
    {
        if self.items.len() as u64 <= k {
            return None;
        }
        if self.is_up(k) {
            return None;
        }
        Some(k as u32)
    }

    /// Returns for each replica whether it is up, by number, in the memory of another list.
    pub(crate) fn ups(&self, memory: Vec<bool>) -> Result<Vec<bool>, NoMemory>
        ensures { IfOk result (λ ups. WhereSitesStand self.now (λ n places. ups.items ≡ map on_paper.is_up places)) }
    {
        let mut ups = memory;
        ups.clear();
        for site in &self.items {
            ups.push(site.is_up())?;
        }
        Ok(ups)
    }

    /// Boots a replica that is down on its disk.
    pub(crate) fn start(&mut self, k: u32) -> Result<BootSize, NoMemory>
        requires { IsOne self.old k }
        ensures { IfOk result (λ made. WhereDown self.old k (λ n places log. BootsTo made log self.new n places k)) }
    {
        let boot = self.items[k as usize].start()?;
        Ok(boot)
    }

    /// Takes a replica down. A replica that is down stays down.
    pub(crate) fn crash(&mut self, k: u32)
        requires { IsOne self.old k }
        ensures { WherePlace self.old k (λ n places p. StandFor self.new n (slice_set places k (on_paper.Site.Down (on_paper.log_of p)))) }
    {
        self.items[k as usize].crash();
    }

    /// Runs one step of a replica that is up. Its output replaces that in `made`.
    pub(crate) fn step(
        &mut self,
        k: u32,
        input: &MpInput,
        from: u32,
        made: &mut MpStep,
    ) -> Result<(), NoMemory>
        requires fits { FitsInput input.now }
        requires there { IsOne self.old k }
        ensures one { IsOne self.new k }
        ensures fits { OnOk result (AllByRecursion FitsSend made.new.batch.sends) }
        ensures steps { OnOk result (WhereUp self.old k (λ n places r. StepsTo made.new (steps.step r input.now from) self.new n places k)) }
    {
        self.items[k as usize].step(input, from, made)?;
        Ok(())
    }

    /// Returns the final line of each replica.
    pub(crate) fn finals(&self) -> Result<MpLines, NoMemory>
        ensures { IfOk result (λ lines. WhereSitesStand self.now (λ n places. lines ≡ map on_paper.final_line (enumerate_from 0 places))) }
    {
        let mut lines = MpLines::new(self.alloc);
        for (k, site) in self.items.iter().enumerate() {
            lines.push(site.final_line(k as u32))?;
        }
        Ok(lines)
    }
}
