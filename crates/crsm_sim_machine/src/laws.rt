//! Laws of machines, of boots and of datagrams, for the crates above.

ghost use Rattle.std.specs.Prelude.{ℕ, ◌≤◌, [], length};
ghost use Rattle.crsm_base.specs.Messages.{FitsDatagram, datagram_bytes};
ghost use Rattle.crsm_spec.specs.Types.{Datagram};
ghost use Rattle.crsm_spec.specs.Log.{Log};
ghost use Rattle.crsm_spec.specs.Replica.{Replica};
ghost use Rattle.crsm_spec.specs.Step.{boot};
ghost use Rattle.crsm_spec.specs.World.{Site};
ghost use Rattle.crsm_sim_machine.specs.declared.machine.Machine.{Machine};
ghost use Rattle.crsm_sim_machine.specs.Outcomes.{IsQuiet};
ghost use Rattle.crsm_sim_machine.specs.Machine.{MachineStands, MachinePends};

/// States that a machine that is up has no pending step. It runs no code.
#[tactic(auto, unfolding(crate::specs::Machine::MachineStands, crate::specs::Machine::MachinePends))]
pub fn machines_pend_nothing()
    ensures { (machine : Machine) (me n : ℕ) (r : Replica) → MachineStands machine me n (Site.Up r) → MachinePends machine me n r [] }
{}

/// States that a boot returns only lines of its records, and sends nothing. It runs no code.
pub fn boots_are_quiet()
    ensures { (me n : ℕ) (log : Log) → IsQuiet (boot me n log) }
{}

/// States that no datagram is longer than the receive buffer. It runs no code.
pub fn datagrams_are_short()
    ensures { (d : Datagram) → FitsDatagram d → length (datagram_bytes d) ≤ 8192 }
{}
