//! The machines of the replicas.

ghost use Rattle.std.specs.Prelude.{◌≡◌, ◌≤◌, ◌<◌, [], ℕ, List, length, map, Some, None, slice_get, slice_set, IfOk, IfSome, IsTrue, false, MatchOption, OnOk};
ghost use Rattle.std.specs.List.{AllByRecursion, enumerate_from};
ghost use Rattle.crsm_core.specs.Core.{FitsSent};
ghost use Rattle.crsm_spec.specs.Draft.{Draft};
ghost use Rattle.crsm_spec.specs.Log.{Log};
ghost use Rattle.crsm_spec.specs.Node.{turn};
ghost use Rattle.crsm_spec.specs.Replica.{Replica};
ghost use Rattle.crsm_spec.specs.World as on_paper;
ghost use Rattle.crsm_sim_machine.specs.Arriving.{turn_of};
ghost use Rattle.crsm_sim_machine.specs.Outcomes.{Makes, Sends};
ghost use Rattle.crsm_sim_machine.specs.Machine.{MachineStands};
ghost use Rattle.crsm_port.specs.Sent.{packets_of};
ghost use Rattle.crsm_world.specs.Machines.{IsNotDownAt, IsNotUpAt, MachinesStand, MachinesPend, MachinesCut, MachinesBoot, is_up_in, up_in, roomed, spec_in, WhereMachinesStand, WhereUp, WherePending, StepsTo, PendsTo, WhereSite, CanBoot};

use crate::ending::StepStop;
use crate::founders::Founders;
use crsm_base::{Line, Lines, MAX_REPLICAS, Members, NoMemory};
use crsm_port::{MemPort, SentPackets};
use crsm_sim_machine::{Arrival, Boot, Machine, Step};
use std::alloc::Global;

/// The machine of each replica, by number.
#[derive(Drop)]
pub(crate) struct Machines {
    alloc: Global,
    founders: Founders,
    items: Vec<Machine>,
    /// The port over which all of them send.
    port: MemPort,
}

impl Machines {
    /// Returns the machines of a cluster that begins with `n` replicas, before any has booted. `NoMemory` if memory
    /// runs out.
    pub fn new(alloc: Global, n: u32) -> Result<Machines, NoMemory>
        requires some { 1 ≤ n }
        requires most { n ≤ 15 }
        ensures { IfOk result (λ machines. MachinesStand machines n []) }
    {
        let port = MemPort::new(alloc, &[])?;
        Ok(Machines {
            alloc,
            founders: Founders::new(n),
            items: Vec::new(alloc),
            port,
        })
    }

    /// Returns the datagrams that they have sent.
    pub fn sent(&self) -> &SentPackets
        ensures { packets_of result.now ≡ self.now.port.sent }
    {
        self.port.sent()
    }

    /// Returns the number of replicas that have booted at least once.
    pub fn count(&self) -> u64
        ensures { WhereMachinesStand self.now (λ n places. result ≡ length places) }
    {
        self.items.len() as u64
    }

    /// Returns the machine of a replica, or `None` if there is no such replica.
    pub fn get(&self, k: u64) -> Option<&Machine>
        ensures { WhereMachinesStand self.now (λ n places.
            MatchOption result (slice_get places k ≡ None) (λ machine. (p : on_paper.Site) × (slice_get places k ≡ Some p) × MachineStands machine.now k n p)) }
    {
        self.items.get(k as usize)
    }

    /// Returns whether a replica is up.
    #[tactic(auto, unfolding(crate::specs::Machines::is_up_in))]
    pub fn is_up(&self, k: u64) -> bool
        ensures up { WhereMachinesStand self.now (λ n places. result ≡ is_up_in places k) }
        ensures within { IsTrue result → k < length self.now.items.items }
        ensures not_down { IsTrue result → IsNotDownAt self.now k }
        ensures not_up { result ≡ false → IsNotUpAt self.now k }
    {
        match self.items.get(k as usize) {
            Some(machine) => machine.is_up(),
            None => false,
        }
    }

    /// Returns `k` as the number of a replica that is up, or `None` if it is not up.
    pub fn up(&self, k: u64) -> Option<u32>
        ensures up { WhereMachinesStand self.now (λ n places. result ≡ up_in places k) }
        ensures within { IfSome result (λ j. j < length self.now.items.items) }
        ensures not_down { IfSome result (λ j. IsNotDownAt self.now j) }
    {
        if !self.is_up(k) {
            return None;
        }
        // There are at most 15.
        u32::try_from(k).ok()
    }

    /// Returns for each replica whether it is up, by number. `NoMemory` if memory runs out.
    pub fn ups(&self) -> Result<Vec<bool>, NoMemory>
        ensures { IfOk result (λ ups. WhereMachinesStand self.now (λ n places. ups.items ≡ map on_paper.is_up places)) }
    {
        let mut ups = Vec::new(self.alloc);
        for machine in &self.items {
            ups.push(machine.is_up())?;
        }
        Ok(ups)
    }

    /// Runs one step of a replica that is up. Returns its output, and the index on the port of the first datagram that
    /// it sent. `NoMemory` if memory runs out.
    pub fn step(
        &mut self,
        k: u32,
        arrival: Arrival<'_>,
        reading: u64,
    ) -> Result<(Step, usize), NoMemory>
        requires within { k < length self.old.items.items }
        requires up { IsNotDownAt self.old k }
        ensures stands { IfOk result (λ made. WhereUp self.old k (λ n places r.
            StepsTo made.0 made.1 (turn r (turn_of arrival.entry, reading)) self.new n places k)) }
        ensures spelt { IfOk result (λ made. AllByRecursion FitsSent made.0.batch.sends) }
        ensures count { length self.new.items.items ≡ length self.old.items.items }
    {
        let made = self.items[k as usize].step(arrival, reading, &mut self.port)?;
        Ok(made)
    }

    /// Runs one step of a replica that is up, which stops after a number of disk calls. Returns its output, or `None`
    /// if the step is lost. `NoMemory` if memory runs out.
    pub fn cut_at(
        &mut self,
        k: u32,
        stop: StepStop,
        arrival: Arrival<'_>,
        reading: u64,
    ) -> Result<Option<Step>, NoMemory>
        requires within { k < length self.old.items.items }
        requires calls { stop.calls ≤ 4 }
        requires up { IsNotDownAt self.old k }
        ensures stands { IfOk result (λ step. WhereUp self.old k (λ n places r.
            MachinesCut stop.calls stop.fill n places k r (turn r (turn_of arrival.entry, reading)) step self.new)) }
        ensures spelt { IfOk result (λ step. IfSome step (λ s. AllByRecursion FitsSent s.batch.sends)) }
    {
        let step = self.items[k as usize].cut_at(stop.calls, stop.fill, arrival, reading)?;
        Ok(step)
    }

    /// Takes a replica down. `NoMemory` if memory runs out.
    pub fn crash(&mut self, k: u32) -> Result<(), NoMemory>
        requires { k < length self.old.items.items }
        ensures stands { OnOk result (WhereSite self.old k (λ n places p. MachinesStand self.new n (slice_set places k (on_paper.Site.Down (on_paper.log_of p))))) }
        ensures port { self.new.port ≡ self.old.port }
    {
        self.items[k as usize].crash()?;
        Ok(())
    }

    /// Makes room for the next new replica, if `k` is its number.
    fn make_room(&mut self, k: u64) -> Result<(), NoMemory>
        ensures stands { OnOk result (WhereMachinesStand self.old (λ n places. k < 15 → MachinesStand self.new n (roomed places k))) }
        ensures not_up { OnOk result (IsNotUpAt self.old k → IsNotUpAt self.new k) }
    {
        let count = self.items.len() as u64;
        if k == count && k < u64::from(MAX_REPLICAS) {
            let machine = Machine::new(self.alloc, k as u32, self.founders.count())?;
            self.items.push(machine)?;
        }
        Ok(())
    }

    /// Boots a replica that is down on its disk, or the next new one on an empty disk, and returns the boot's output.
    /// `None` if there can be no such replica; `NoMemory` if memory runs out.
    pub fn start(&mut self, k: u64) -> Result<Option<Boot>, NoMemory>
        requires { IsNotUpAt self.old k }
        ensures { IfOk result (λ boot. WhereMachinesStand self.old (λ n places. k < 15 → (log : Log) → CanBoot places k log →
            MachinesBoot n (roomed places k) k log boot self.new)) }
    {
        self.make_room(k)?;
        if k >= self.items.len() as u64 {
            return Ok(None);
        }
        let boot = self.items[k as usize].start()?;
        Ok(Some(boot))
    }

    /// Runs one more step of a replica that is up, to become durable together with others. `NoMemory` if memory runs
    /// out.
    pub fn take(&mut self, k: u32, arrival: Arrival<'_>, reading: u64) -> Result<Step, NoMemory>
        requires within { k < length self.old.items.items }
        requires up { IsNotDownAt self.old k }
        ensures stands { IfOk result (λ step. WherePending self.old k (λ n places r steps.
            PendsTo step steps (turn r (turn_of arrival.entry, reading)) self.new n places k)) }
        ensures spelt { IfOk result (λ step. AllByRecursion FitsSent step.batch.sends) }
        ensures count { length self.new.items.items ≡ length self.old.items.items }
        ensures up { OnOk result (IsNotDownAt self.new k) }
    {
        let step = self.items[k as usize].take(arrival, reading)?;
        Ok(step)
    }

    /// Makes the records of the steps that a replica took durable, and returns the index on the port of the first
    /// datagram that they sent. `NoMemory` if memory runs out.
    pub fn flush(&mut self, k: u32) -> Result<usize, NoMemory>
        requires within { k < length self.old.items.items }
        requires up { IsNotDownAt self.old k }
        ensures { IfOk result (λ first. (n : ℕ) (places : List on_paper.Site) (steps : List Draft) → MachinesPend k steps self.old n places → Sends self.new.port first steps × MachinesStand self.new n places) }
    {
        let first = self.items[k as usize].flush(&mut self.port)?;
        Ok(first)
    }

    /// Returns the replicas whose majorities count in the known epoch of a replica that is up, or `None` if it is not
    /// up. `NoMemory` if memory runs out.
    pub fn spec(&self, k: u64) -> Result<Option<Members>, NoMemory>
        ensures { IfOk result (λ members. WhereMachinesStand self.now (λ n places. members ≡ spec_in n places k)) }
    {
        match self.items.get(k as usize) {
            Some(machine) => Ok(machine.spec()?),
            None => Ok(None),
        }
    }

    /// Returns the final line of a replica.
    fn final_line(&self, replica: u32, machine: &Machine) -> Line
        ensures { (n : ℕ) (p : on_paper.Site) → MachineStands machine.now replica n p → result ≡ on_paper.final_line (replica, p) }
    {
        Line::Final {
            replica,
            state: machine.state(),
            known: machine.known(),
            executed: machine.executed_len(),
        }
    }

    /// Returns the final line of each replica. `NoMemory` if memory runs out.
    pub fn finals(&self) -> Result<Lines, NoMemory>
        ensures { IfOk result (λ lines. WhereMachinesStand self.now (λ n places. lines ≡ map on_paper.final_line (enumerate_from 0 places))) }
    {
        let mut lines = Lines::new(self.alloc);
        for replica in 0..MAX_REPLICAS {
            let Some(machine) = self.get(u64::from(replica)) else {
                return Ok(lines);
            };
            lines.push(self.final_line(replica, machine))?;
        }
        Ok(lines)
    }
}
