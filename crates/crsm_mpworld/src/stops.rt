//! Boots and stops of a replica.

ghost use Rattle.std.specs.Prelude.{◌≡◌, ◌<◌, ◌≤◌, [], length, IfOk, OnOk};
ghost use Rattle.std.specs.List.{AllByRecursion};
ghost use Rattle.crsm_mpreplica.specs.Fitting.{FitsInput};
ghost use Rattle.crsm_mpspec.specs.Log.{executed};
ghost use Rattle.crsm_mpspec.specs.Step as steps;
ghost use Rattle.crsm_mpspec.specs.World as on_paper;
ghost use Rattle.crsm_mpworld.specs.Fits.{FitsSend};
ghost use Rattle.crsm_mpworld.specs.Sites.{Boots, IsDownWith, Makes, SiteStands, WhereSiteStands, WhereSiteIsDown, WhereSiteIsUp};

use crate::place::{BootSize, Machine, Site};
use crate::site::MpStep;
use crsm_base::{Bytes, NoMemory};
use crsm_disk::MemDisk;
use crsm_log::{Log, MountError};
use crsm_mpcore::MpCore;
use crsm_mpledger::MpLedger;
use crsm_mpspec::{MpInput, MpLine};
use std::alloc::Global;

impl Site {
    /// Returns replica `me` of `n`: down, with an empty disk.
    pub(crate) fn new(alloc: Global, me: u32, n: u32) -> Result<Site, NoMemory>
        requires mine { me < n }
        requires most { n ≤ 15 }
        ensures { IfOk result (λ site. SiteStands site me n (on_paper.Site.Down [])) }
    {
        Ok(Site {
            me,
            n,
            machine: never_booted(alloc, me, n)?,
            is_up: false,
        })
    }

    /// Returns whether the replica is up.
    #[tactic(auto, unfolding(crsm_mpspec::specs::World::is_up))]
    pub(crate) fn is_up(&self) -> bool
        ensures { WhereSiteStands self.now (λ me n s. result ≡ on_paper.is_up s) }
    {
        self.is_up
    }

    /// Returns the number of slots executed by its log.
    pub(crate) fn executed_len(&self) -> u64
        ensures { WhereSiteStands self.now (λ me n s. result ≡ length (executed (on_paper.log_of s))) }
    {
        self.machine.executed_len()
    }

    /// Returns its final line, as that of replica `me`.
    pub(crate) fn final_line(&self, me: u32) -> MpLine
        ensures { WhereSiteStands self.now (λ i n s. result ≡ on_paper.final_line (me, s)) }
    {
        MpLine::Final {
            replica: me,
            up: self.is_up(),
            executed: self.executed_len(),
        }
    }

    /// Boots the replica, which is down, on its log.
    pub(crate) fn start(&mut self) -> Result<BootSize, NoMemory>
        ensures { IfOk result (λ made. WhereSiteIsDown self.old (λ me n log.
            Boots made me n log × SiteStands self.new me n (on_paper.Site.Up (steps.boot me n log).replica))) }
    {
        let boot = self.machine.boot(self.me, self.n)?;
        self.is_up = true;
        Ok(boot)
    }

    /// Takes the replica down. A replica that is down stays down.
    pub(crate) fn crash(&mut self)
        ensures { WhereSiteStands self.old (λ me n s. SiteStands self.new me n (on_paper.Site.Down (on_paper.log_of s))) }
    {
        self.is_up = false;
    }

    /// Runs one step of the replica, which is up. Its output replaces that in `made`.
    pub(crate) fn step(
        &mut self,
        input: &MpInput,
        from: u32,
        made: &mut MpStep,
    ) -> Result<(), NoMemory>
        requires { FitsInput input.now }
        ensures fits { OnOk result (AllByRecursion FitsSend made.new.batch.sends) }
        ensures steps { OnOk result (WhereSiteIsUp self.old (λ me n r.
            Makes made.new (steps.step r input.now from) × SiteStands self.new me n (on_paper.Site.Up (steps.step r input.now from).replica))) }
    {
        self.machine.step(input, from, made)?;
        Ok(())
    }
}

/// Returns replica `me` of `n` on an empty log, before its first boot.
fn never_booted(alloc: Global, me: u32, n: u32) -> Result<Machine, NoMemory>
    requires mine { me < n }
    requires most { n ≤ 15 }
    ensures { IfOk result (λ machine. IsDownWith machine []) }
{
    let disk = MemDisk::new(alloc, &[], None, 0)?;
    let (log, bodies) = match Log::mount(alloc, disk) {
        Ok(mounted) => mounted,
        Err((MountError::DiskFault, _disk)) => unreachable!(),
        Err((MountError::BadGate { .. }, _disk)) => unreachable!(),
        Err((MountError::NoMemory, _disk)) => return Err(NoMemory),
    };
    let ledger = MpLedger::recover(alloc, &bodies)?;
    Ok(Machine {
        alloc,
        core: MpCore::new(alloc, me, n, ledger),
        log,
        is_spent: false,
        body: Bytes::new(alloc),
    })
}
