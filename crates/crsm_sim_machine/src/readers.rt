//! Readers of a machine.

ghost use Rattle.std.specs.Prelude.{◌≡◌, ◌∷◌, [], ℕ, length, is_some, IfOk, IfSome, IsTrue, false, if◌then◌else◌};
ghost use Rattle.crsm_spec.specs.Log as logs;
ghost use Rattle.crsm_spec.specs.Replica.{Replica};
ghost use Rattle.crsm_spec.specs.World as world;
ghost use Rattle.crsm_ledger.specs.Ledger.{LedgerStands};
ghost use Rattle.crsm_disk.specs.Memory.{meaning_of};
ghost use Rattle.crsm_shell.specs.Shell.{ShellStands};
ghost use Rattle.crsm_shell.specs.Words.{disk_of};
ghost use Rattle.crsm_sim_machine.specs.Outcomes.{spec_at};
ghost use Rattle.crsm_sim_machine.specs.Machine.{IsNotDown, IsNotUp, MachineStands, WhereStands, WhereUp};
ghost use Rattle.crsm_sim_machine.specs.States.{SumsUp};

use crate::machine::Machine;
use crate::state::MachineState;
use crate::stopped::{LogSummary, NOTHING, summary_of};
use crsm_base::{Members, NoMemory, State};
use crsm_disk::MemDisk;
use crsm_ledger::Ledger;
use crsm_shell::Shell;

impl Machine {
    /// Returns whether the replica is up.
    #[tactic(auto, unfolding(crate::specs::Machine::MachineStands, crsm_spec::specs::World::is_up))]
    pub fn is_up(&self) -> bool
        ensures up { WhereStands self.now (λ me n s. result ≡ world.is_up s) }
        ensures not_down { IsTrue result → IsNotDown self.now }
        ensures not_up { result ≡ false → IsNotUp self.now }
    {
        match &self.state {
            MachineState::Up(_) => true,
            MachineState::Down(_) => false,
            MachineState::Spent => false,
        }
    }

    /// Returns the shell of a replica that is up, or `None` if it is down.
    #[tactic(auto, unfolding(crate::specs::Machine::MachineStands, crsm_spec::specs::World::is_up))]
    pub fn shell(&self) -> Option<&Shell<MemDisk>>
        ensures up { WhereStands self.now (λ me n s. is_some result ≡ world.is_up s) }
        ensures stands { IfSome result (λ shell. WhereUp self.now (λ me n r. ShellStands shell.now (meaning_of (disk_of shell.now)) r.log r [])) }
    {
        match &self.state {
            MachineState::Up(shell) => Some(shell),
            MachineState::Down(_) => None,
            MachineState::Spent => None,
        }
    }

    /// Returns the summary of its log.
    #[tactic(auto, unfolding(crate::specs::Machine::MachineStands, crsm_spec::specs::World::log_of))]
    fn summary(&self) -> LogSummary
        ensures { WhereStands self.now (λ me n s. SumsUp result (world.log_of s)) }
    {
        match &self.state {
            MachineState::Up(shell) => summary_of(shell.state()),
            MachineState::Down(left) => left.summary,
            MachineState::Spent => NOTHING,
        }
    }

    /// Returns the number of the known epoch.
    pub fn known(&self) -> u64
        ensures { WhereStands self.now (λ me n s. result ≡ logs.known (world.log_of s)) }
    {
        self.summary().known
    }

    /// Returns the number of executed entries.
    pub fn executed_len(&self) -> u64
        ensures { WhereStands self.now (λ me n s. result ≡ length (logs.executed (world.log_of s))) }
    {
        self.summary().executed
    }

    /// Returns the state of the replica.
    #[tactic(auto, unfolding(crate::specs::Machine::MachineStands, crsm_spec::specs::World::state_of))]
    pub fn state(&self) -> State
        ensures { WhereStands self.now (λ me n s. result ≡ world.state_of s) }
    {
        match &self.state {
            MachineState::Up(shell) => state_of(shell.state()),
            MachineState::Down(_) => State::Down,
            MachineState::Spent => State::Down,
        }
    }

    /// Returns the replicas whose majorities count in the known epoch of a replica that is up, or `None` if it is down.
    /// `NoMemory` if memory runs out.
    #[tactic(auto, unfolding(crate::specs::Machine::MachineStands, crate::specs::Outcomes::spec_at))]
    pub fn spec(&self) -> Result<Option<Members>, NoMemory>
        ensures { IfOk result (λ members. WhereStands self.now (λ me n s. members ≡ spec_at n s)) }
    {
        match &self.state {
            MachineState::Up(shell) => Ok(Some(shell.state().spec()?)),
            MachineState::Down(_) => Ok(None),
            MachineState::Spent => Ok(None),
        }
    }
}

/// Returns the state of a replica that is up, by its ledger.
#[tactic(auto, unfolding(crsm_spec::specs::Log::active))]
fn state_of(ledger: &Ledger) -> State
    ensures { (me n : ℕ) (log : logs.Log) → LedgerStands me n ledger.now log → result ≡ (if logs.active log then State.Live else if logs.live log then State.Held else State.Out) }
{
    if !ledger.live() {
        return State::Out;
    }
    if ledger.suspended() {
        return State::Held;
    }
    State::Live
}
