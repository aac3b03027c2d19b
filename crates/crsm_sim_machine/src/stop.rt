//! Crashes of a machine.

ghost use Rattle.std.specs.Prelude.{◌≤◌, ℕ, IfOk, IfSome, OnOk};
ghost use Rattle.std.specs.List.{AllByRecursion};
ghost use Rattle.crsm_core.specs.Core.{FitsSent};
ghost use Rattle.crsm_spec.specs.Replica.{Replica};
ghost use Rattle.crsm_spec.specs.Node.{turn};
ghost use Rattle.crsm_spec.specs.World as world;
ghost use Rattle.crsm_sim_machine.specs.Arriving.{turn_of};
ghost use Rattle.crsm_sim_machine.specs.Outcomes.{IsCut};
ghost use Rattle.crsm_sim_machine.specs.Machine.{IsNotDown, MachineStands, WhereStands, WhereUp};

use crate::arrival::Arrival;
use crate::cut::{PutStop, cut};
use crate::machine::Machine;
use crate::state::MachineState;
use crate::step::Step;
use crate::stopped::stopped_by;
use crsm_base::NoMemory;
use std::mem;

impl Machine {
    /// Takes the replica down with the content of its disk. A replica that is down stays down. `NoMemory` if memory
    /// runs out.
    #[tactic(auto, unfolding(crate::specs::Machine::MachineStands, crsm_spec::specs::World::log_of))]
    pub fn crash(&mut self) -> Result<(), NoMemory>
        ensures { OnOk result (WhereStands self.old (λ me n s. MachineStands self.new me n (world.Site.Down (world.log_of s)))) }
    {
        match mem::replace(&mut self.state, MachineState::Spent) {
            MachineState::Up(shell) => {
                self.state.change(MachineState::Down(stopped_by(shell)?));
                Ok(())
            }
            MachineState::Down(left) => {
                self.state.change(MachineState::Down(left));
                Ok(())
            }
            MachineState::Spent => Err(NoMemory),
        }
    }

    /// Runs one step that stops after a number of disk calls of its put, with the byte `fill` in the ranges that were
    /// not synced, and takes the replica down. Returns the output of the step, or `None` if the step is lost.
    /// `NoMemory` if memory runs out, or the log has no room for the records.
    #[tactic(auto, unfolding(crate::specs::Machine::MachineStands))]
    pub fn cut_at(
        &mut self,
        calls: u64,
        fill: u8,
        arrival: Arrival<'_>,
        reading: u64,
    ) -> Result<Option<Step>, NoMemory>
        requires calls { calls ≤ 4 }
        requires up { IsNotDown self.old }
        ensures stands { IfOk result (λ step. WhereUp self.old (λ me n r.
            IsCut calls fill me n r (turn r (turn_of arrival.entry, reading)) step self.new)) }
        ensures spelt { IfOk result (λ step. IfSome step (λ s. AllByRecursion FitsSent s.batch.sends)) }
    {
        match mem::replace(&mut self.state, MachineState::Spent) {
            MachineState::Up(shell) => {
                let stop = PutStop { calls, fill };
                let (step, left) = cut(shell, stop, arrival, reading)?;
                self.state.change(MachineState::Down(left));
                Ok(step)
            }
            MachineState::Down(_) => unreachable!(),
            MachineState::Spent => Err(NoMemory),
        }
    }
}
