//! Steps of replicas with each ending.

ghost use Rattle.std.specs.Prelude.{◌≡◌, ◌≤◌, ◌<◌, Some, length, slice_get, IfOk};
ghost use Rattle.crsm_sim_machine.specs.Arriving.{turn_of};
ghost use Rattle.crsm_spec.specs.Moments as moments;
ghost use Rattle.crsm_spec.specs.Node.{turn};
ghost use Rattle.crsm_spec.specs.Replica.{Replica};
ghost use Rattle.crsm_spec.specs.World as on_paper;
ghost use Rattle.crsm_world.specs.Effects.{Leaves, FitsEffects, WhereUpIn};
ghost use Rattle.crsm_world.specs.Turning.{ending_of, FitsEnding, turn_at};
ghost use Rattle.crsm_world.specs.Machines.{IsNotDownAt, MachinesStand};

use crate::ending::{Effects, Ending, StepStop};
use crate::machines::Machines;
use crsm_base::NoMemory;
use crsm_sim_machine::Arrival;

impl Machines {
    /// Runs a whole step of a replica that is up.
    fn step_whole(
        &mut self,
        k: u32,
        arrival: Arrival<'_>,
        reading: u64,
    ) -> Result<Effects, NoMemory>
        requires within { k < length self.old.items.items }
        requires up { IsNotDownAt self.old k }
        ensures leaves { IfOk result (λ effects. WhereUpIn self.old k (λ v r.
            Leaves (on_paper.whole_step v k (turn r (turn_of arrival.entry, reading))) v effects self.new)) }
        ensures spelt { IfOk result (λ effects. FitsEffects effects) }
    {
        let (step, first) = self.step(k, arrival, reading)?;
        Ok(Effects::Whole { k, step, first })
    }

    /// Runs a step of a replica that is up, which stops once its records are durable and its first `sends` datagrams
    /// and replies are sent.
    fn step_kept(
        &mut self,
        k: u32,
        sends: u64,
        arrival: Arrival<'_>,
        reading: u64,
    ) -> Result<Effects, NoMemory>
        requires within { k < length self.old.items.items }
        requires up { IsNotDownAt self.old k }
        ensures leaves { IfOk result (λ effects. WhereUpIn self.old k (λ v r.
            Leaves (on_paper.cut_step sends v k (turn r (turn_of arrival.entry, reading))) v effects self.new)) }
        ensures spelt { IfOk result (λ effects. FitsEffects effects) }
    {
        let (step, first) = self.step(k, arrival, reading)?;
        self.crash(k)?;
        Ok(Effects::Cut {
            k,
            step,
            first,
            sends,
        })
    }

    /// Takes a replica down with the content of its disk. `NoMemory` if memory runs out.
    pub fn go_down(&mut self, k: u32) -> Result<Effects, NoMemory>
        requires { k < length self.old.items.items }
        ensures leaves { IfOk result (λ effects. (v : on_paper.World) (p : on_paper.Site) → MachinesStand self.old v.n v.sites → slice_get v.sites k ≡ Some p →
            Leaves (on_paper.down v k) v effects self.new) }
        ensures spelt { IfOk result (λ effects. FitsEffects effects) }
    {
        self.crash(k)?;
        Ok(Effects::Down { k })
    }

    /// Runs a step of a replica that is up, which stops during its put.
    fn step_stopped(
        &mut self,
        k: u32,
        stop: StepStop,
        arrival: Arrival<'_>,
        reading: u64,
    ) -> Result<Effects, NoMemory>
        requires within { k < length self.old.items.items }
        requires calls { stop.calls ≤ 4 }
        requires up { IsNotDownAt self.old k }
        ensures leaves { IfOk result (λ effects. WhereUpIn self.old k (λ v r.
            Leaves (moments.cut_at stop.calls stop.fill v k (turn r (turn_of arrival.entry, reading))) v effects self.new)) }
        ensures spelt { IfOk result (λ effects. FitsEffects effects) }
    {
        match self.cut_at(k, stop, arrival, reading)? {
            Some(step) => Ok(Effects::Cut {
                k,
                step,
                first: 0,
                sends: 0,
            }),
            None => Ok(Effects::Down { k }),
        }
    }

    /// Runs a step of replica `k` on an arrival, and ends it as `ending` says. Nothing happens if the replica is down.
    /// `NoMemory` if memory runs out.
    pub fn arrive(
        &mut self,
        k: u64,
        ending: Ending,
        arrival: Arrival<'_>,
        reading: u64,
    ) -> Result<Effects, NoMemory>
        requires { FitsEnding ending }
        ensures leaves { IfOk result (λ effects. (v : on_paper.World) → MachinesStand self.old v.n v.sites →
            Leaves (turn_at (ending_of ending) v k (turn_of arrival.entry) reading) v effects self.new) }
        ensures spelt { IfOk result (λ effects. FitsEffects effects) }
    {
        let Some(k) = self.up(k) else {
            return Ok(Effects::Nothing);
        };
        match ending {
            Ending::Whole => Ok(self.step_whole(k, arrival, reading)?),
            Ending::Kept { sends } => Ok(self.step_kept(k, sends, arrival, reading)?),
            // The step is not run: its records would be lost, and nothing would be sent.
            Ending::Lost => Ok(self.go_down(k)?),
            Ending::At { stop } => Ok(self.step_stopped(k, stop, arrival, reading)?),
        }
    }
}
