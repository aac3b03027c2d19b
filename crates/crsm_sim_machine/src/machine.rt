//! The state of a simulated replica.

ghost use Rattle.std.specs.Prelude.{◌≤◌, ◌<◌};
ghost use Rattle.crsm_sim_machine.specs.States.{IsStateOf};

use crate::state::MachineState;
use std::alloc::Global;

/// A simulated replica: it is up, or down with the content of its disk. Unless memory ran out, the disk has a log of
/// the replica, and the shell is the replica's. After an error its fields are unspecified.
pub struct Machine {
    pub(crate) alloc: Global,
    /// The number of the replica.
    pub(crate) me: u32,
    /// Number of replicas that the cluster began with.
    pub(crate) n: u32,
    pub(crate) state: MachineState,
    ghost below: { me < 15 },
    ghost some: { 1 ≤ n },
    ghost most: { n ≤ 15 },
    ghost stands: { ∥ IsStateOf me n state ∥₁ },
}

// Written by hand, it is one call for the crates above, which would prove a derived one again.
impl Drop for Machine {
    fn drop(self) {
        let Machine {
            alloc: _,
            me: _,
            n: _,
            state: _,
        } = self;
    }
}
