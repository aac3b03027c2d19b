//! The boot of a machine.

ghost use Rattle.std.specs.Prelude.{◌≡◌, ◌≤◌, ◌<◌, [], ℕ, IfOk};
ghost use Rattle.crsm_spec.specs.Log.{Log};
ghost use Rattle.crsm_spec.specs.Step as rules;
ghost use Rattle.crsm_spec.specs.World as world;
ghost use Rattle.crsm_spec.specs.World.{body_size};
ghost use Rattle.crsm_sim_machine.specs.Outcomes.{Boots, HasBooted, IsRunning};
ghost use Rattle.crsm_sim_machine.specs.Machine.{IsNotUp, MachineStands, WhereDown};
ghost use Rattle.crsm_sim_machine.specs.States.{HasLeft, HasSomeLeft, HasSomeLog, HasSomeReplica, IsDisk, IsLog, IsUpAs};

use crate::laws::boots_are_quiet;
use crate::machine::Machine;
use crate::state::MachineState;
use crate::step::Boot;
use crate::stopped::{Left, never_booted};
use crsm_base::NoMemory;
use crsm_disk::MemDisk;
use crsm_shell::{BootError, Shell, StoppedLog, logs_are_not_bad};
use std::alloc::Global;
use std::mem;

/// The address of each replica, which in a world is its number.
const ADDRESSES: [u64; 15] = [0, 1, 2, 3, 4, 5, 6, 7, 8, 9, 10, 11, 12, 13, 14];

impl Machine {
    /// Returns the machine of replica `me` in a cluster that began with `n`: down, with an empty disk. `NoMemory` if
    /// memory runs out.
    #[tactic(auto, unfolding(crate::specs::Machine::MachineStands))]
    pub fn new(alloc: Global, me: u32, n: u32) -> Result<Machine, NoMemory>
        requires below { me < 15 }
        requires some { 1 ≤ n }
        requires most { n ≤ 15 }
        ensures stands { IfOk result (λ machine. MachineStands machine me n (world.Site.Down [])) }
        ensures down { IfOk result IsNotUp }
    {
        Ok(Machine {
            alloc,
            me,
            n,
            state: MachineState::Down(never_booted(alloc)?),
        })
    }

    /// Boots the replica, which must be down, on the log that it left, and returns the boot's output. `NoMemory` if
    /// memory runs out, or its log has no room for the boot.
    #[tactic(auto, unfolding(crate::specs::Machine::MachineStands))]
    pub fn start(&mut self) -> Result<Boot, NoMemory>
        requires { IsNotUp self.old }
        ensures { IfOk result (λ boot. WhereDown self.old (λ me n log. HasBooted self.new me n boot (rules.boot me n log))) }
    {
        boots_are_quiet();
        match mem::replace(&mut self.state, MachineState::Spent) {
            MachineState::Down(stopped) => {
                let running = boot_on(self.alloc, self.me, self.n, stopped.left)?;
                self.state.change(MachineState::Up(running.shell));
                Ok(running.boot)
            }
            MachineState::Up(_) => unreachable!(),
            MachineState::Spent => Err(NoMemory),
        }
    }
}

/// A replica that has booted, and the boot's output.
#[derive(Drop)]
struct Running {
    shell: Shell<MemDisk>,
    boot: Boot,
}

/// Boots a replica on what a crash left. No call of the disk fails.
fn boot_on(alloc: Global, me: u32, n: u32, left: Left) -> Result<Running, NoMemory>
    requires below { me < 15 }
    requires some { 1 ≤ n }
    requires most { n ≤ 15 }
    requires left { ∥ HasSomeLeft me n left ∥₁ }
    ensures { IfOk result (λ running. (log : Log) → HasLeft me n left log → IsRunning me n running (rules.boot me n log)) }
{
    match left {
        Left::Disk(disk) => boot_on_disk(alloc, me, n, disk),
        Left::Log(log) => boot_on_log(alloc, log),
    }
}

/// Boots a replica on its disk: the log is read.
fn boot_on_disk(alloc: Global, me: u32, n: u32, disk: MemDisk) -> Result<Running, NoMemory>
    requires below { me < 15 }
    requires some { 1 ≤ n }
    requires most { n ≤ 15 }
    requires left { ∥ HasSomeLog me n disk ∥₁ }
    ensures { IfOk result (λ running. (log : Log) → IsDisk me n disk log → IsRunning me n running (rules.boot me n log)) }
{
    logs_are_not_bad();
    match Shell::boot(alloc, me, n, &ADDRESSES, disk) {
        Ok(booted) => {
            drop(booted.bodies);
            Ok(Running {
                shell: booted.shell,
                boot: Boot {
                    lines: booted.lines,
                    size: booted.size,
                },
            })
        }
        Err((BootError::BadLog { .. }, _disk)) => unreachable!(),
        Err((BootError::DiskFault, _disk)) => unreachable!(),
        // The log has no room for the boot.
        Err((BootError::LogFull, disk)) => {
            drop(disk);
            Err(NoMemory)
        }
        Err((BootError::NoMemory, disk)) => {
            drop(disk);
            Err(NoMemory)
        }
    }
}

/// Boots a replica on the log that it left, which is not read.
fn boot_on_log(alloc: Global, left: StoppedLog<MemDisk>) -> Result<Running, NoMemory>
    requires { ∥ HasSomeReplica left ∥₁ }
    ensures { IfOk result (λ running. (me n : ℕ) (log : Log) → IsLog me n left log → IsRunning me n running (rules.boot me n log)) }
{
    match Shell::boot_again(alloc, &ADDRESSES, left) {
        Ok(booted) => Ok(Running {
            shell: booted.shell,
            boot: Boot {
                lines: booted.lines,
                size: booted.size,
            },
        }),
        Err((BootError::BadLog { .. }, _disk)) => unreachable!(),
        Err((BootError::DiskFault, _disk)) => unreachable!(),
        // The log has no room for the boot.
        Err((BootError::LogFull, disk)) => {
            drop(disk);
            Err(NoMemory)
        }
        Err((BootError::NoMemory, disk)) => {
            drop(disk);
            Err(NoMemory)
        }
    }
}
