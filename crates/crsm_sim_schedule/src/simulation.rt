//! The trait of a simulation that a schedule drives.

ghost use Rattle.std.specs.Prelude.{◌≡◌, ◌≤◌, ◌+◌, ◌++◌, IfOk, IfErr, OnOk};
ghost use Rattle.crsm_schedule.specs.Grammar.{FitsEvent};
ghost use Rattle.crsm_sim_schedule.specs.Rules.{Rules, Begins, Happens, StopsAt};
ghost use Rattle.crsm_sim_schedule.specs.Schedules.{Schedule, line_count};

use crate::cause::Cause;
use crsm_base::{Bytes, NoMemory};
use crsm_port_lines::Stop;
use crsm_schedule::Event;
use std::alloc::Global;

/// A simulation of a cluster, in which the events of a schedule happen one after another.
pub trait Simulation: Drop {
    /// Which schedules it can run, and what it writes for them.
    ghost rules: { Rules };

    /// Which schedules lead to its state.
    ghost stands: { Self → Schedule → Type 0 };

    /// Begins with this number of replicas, which have just booted, and appends the text of the lines of their boots.
    /// After `NoMemory` the text is not usable.
    fn begin(alloc: Global, replicas: u32, text: &mut Bytes) -> Result<Self, NoMemory>
        requires some { 1 ≤ replicas }
        requires most { replicas ≤ 15 }
        ensures { IfOk result (λ made. Begins rules (stands made) replicas text.old text.new) };

    /// Executes an event and appends the text of its lines. `at` is the number of the event's line in the schedule.
    /// `Refused` leaves the text unchanged; after `NoMemory` neither text nor simulation are usable.
    fn advance(&mut self, at: u64, event: &Event, text: &mut Bytes) -> Result<(), Stop<Cause>>
        requires { FitsEvent event.now }
        ensures ok { (s : Schedule) → at ≡ line_count s + 1 → rules.can_run s → stands self.old s
            → OnOk result (Happens rules (stands self.new) s event.now text.old text.new) }
        ensures err { (s : Schedule) → rules.can_run s → stands self.old s
            → IfErr result (λ stop. StopsAt rules s event.now text.old text.new stop) };

    /// Appends the text of the final lines. After `NoMemory` the text is not usable.
    fn push_finals(&self, text: &mut Bytes) -> Result<(), NoMemory>
        ensures { (s : Schedule) → rules.can_run s → stands self.now s → OnOk result (text.new ≡ text.old ++ rules.finals s) };
}
