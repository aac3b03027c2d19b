//! The steps of a machine.

ghost use Rattle.std.specs.Prelude.{◌≡◌, ◌++◌, ◌∷◌, [], ℕ, List, IfOk, OnOk};
ghost use Rattle.std.specs.List.{AllByRecursion};
ghost use Rattle.crsm_core.specs.Core.{FitsSent};
ghost use Rattle.crsm_spec.specs.Replica.{Replica};
ghost use Rattle.crsm_spec.specs.Draft.{Draft};
ghost use Rattle.crsm_spec.specs.Node.{turn};
ghost use Rattle.crsm_spec.specs.World as world;
ghost use Rattle.crsm_sim_machine.specs.Arriving.{turn_of};
ghost use Rattle.crsm_sim_machine.specs.Outcomes.{IsWell, Makes, Sends, HasStepped, HasTaken};
ghost use Rattle.crsm_sim_machine.specs.Machine.{IsNotDown, MachineStands, MachinePends, WhereUp, WherePending};

use crate::arrival::Arrival;
use crate::machine::Machine;
use crate::state::MachineState;
use crate::step::Step;
use crate::turn;
use crsm_base::NoMemory;
use crsm_port::MemPort;

impl Machine {
    /// Runs one step at this reading of the clock, in microseconds, and makes its records durable. Returns its output,
    /// and the index on the port of the first datagram that it sent. `NoMemory` if memory runs out, or the log has no
    /// room for the records.
    #[tactic(auto, unfolding(crate::specs::Machine::MachineStands))]
    pub fn step(
        &mut self,
        arrival: Arrival<'_>,
        reading: u64,
        port: &mut MemPort,
    ) -> Result<(Step, usize), NoMemory>
        requires { IsNotDown self.old }
        ensures sent { IfOk result (λ made. IsWell port.old → WhereUp self.old (λ me n r. Sends port.new made.1 (turn r (turn_of arrival.entry, reading) ∷ []))) }
        ensures stands { IfOk result (λ made. WhereUp self.old (λ me n r. HasStepped self.new me n made.0 (turn r (turn_of arrival.entry, reading)))) }
        ensures spelt { IfOk result (λ made. AllByRecursion FitsSent made.0.batch.sends) }
    {
        match &mut self.state {
            MachineState::Up(shell) => match turn::step(shell, arrival, reading, port) {
                Ok(made) => Ok(made),
                Err(why) => {
                    // Half a step was made.
                    self.state.change(MachineState::Spent);
                    Err(why)
                }
            },
            MachineState::Down(_) => unreachable!(),
            MachineState::Spent => Err(NoMemory),
        }
    }

    /// Runs one more step of those that the next `flush` makes durable together, at most 32, and returns its output.
    /// `NoMemory` if memory runs out.
    #[tactic(auto, unfolding(crate::specs::Machine::MachinePends))]
    pub fn take(&mut self, arrival: Arrival<'_>, reading: u64) -> Result<Step, NoMemory>
        requires { IsNotDown self.old }
        ensures stands { IfOk result (λ step. WherePending self.old (λ me n r steps. HasTaken self.new me n steps step (turn r (turn_of arrival.entry, reading)))) }
        ensures spelt { IfOk result (λ step. AllByRecursion FitsSent step.batch.sends) }
        ensures up { OnOk result (IsNotDown self.new) }
    {
        match &mut self.state {
            MachineState::Up(shell) => match turn::take(shell, arrival, reading) {
                Ok(step) => Ok(step),
                Err(why) => {
                    // Half a step was taken.
                    self.state.change(MachineState::Spent);
                    Err(why)
                }
            },
            MachineState::Down(_) => unreachable!(),
            MachineState::Spent => Err(NoMemory),
        }
    }

    /// Makes the records of the steps since the last `flush` durable, sends their datagrams over the port, and returns
    /// the index on it of the first one. `NoMemory` if memory runs out, or the log has no room for the records.
    #[tactic(auto, unfolding(crate::specs::Machine::MachinePends, crate::specs::Machine::MachineStands))]
    pub fn flush(&mut self, port: &mut MemPort) -> Result<usize, NoMemory>
        requires { IsNotDown self.old }
        ensures stands { OnOk result (WherePending self.old (λ me n r steps. MachineStands self.new me n (world.Site.Up r))) }
        ensures sent { IfOk result (λ first. WherePending self.old (λ me n r steps. IsWell port.old → Sends port.new first steps)) }
    {
        match &mut self.state {
            MachineState::Up(shell) => match turn::flush(shell, port) {
                Ok(first) => Ok(first),
                Err(why) => {
                    // Half a flush was made.
                    self.state.change(MachineState::Spent);
                    Err(why)
                }
            },
            MachineState::Down(_) => unreachable!(),
            MachineState::Spent => Err(NoMemory),
        }
    }
}
