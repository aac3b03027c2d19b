//! The states of a machine.

ghost use Rattle.std.specs.Prelude.{◌≡◌};

use crate::stopped::Stopped;
use crsm_disk::MemDisk;
use crsm_shell::Shell;
use std::mem;

/// The state of a machine: up, down, or spent.
#[derive(Drop)]
pub(crate) enum MachineState {
    Up(Shell<MemDisk>),
    Down(Stopped),
    /// Memory ran out while the state changed.
    Spent,
}

impl MachineState {
    /// Changes to the next state. What is dropped is large: it is dropped here alone.
    pub(crate) fn change(&mut self, next: MachineState)
        ensures { self.new ≡ next }
    {
        drop(mem::replace(self, next));
    }
}
