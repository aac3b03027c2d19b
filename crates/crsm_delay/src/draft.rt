//! A plan that is read line by line.

ghost use Rattle.std.specs.Prelude.{◌≡◌, OnErr, OnOk};
ghost use Rattle.crsm_delay.specs.Drafts.{can_follow, empty, has_delay, has_offset, with_line};

use crate::line::PlanLine;
use crate::moments::offset_of;
use crsm_base::NoMemory;
use crsm_spec_plan::{Delay, Delays, Offset, Offsets, Plan};
use std::alloc::Global;

/// Greatest moment of a command, and greatest offset of a clock, in microseconds.
const MOST_MOMENT: u64 = 1_000_000_000_000;

/// Greatest delay of a datagram in microseconds.
const MOST_DELAY: u64 = 1_000_000_000;

/// The lines of a plan that were read.
#[derive(Debug, Drop)]
pub struct Draft {
    /// The origin and its moment are 0 before the line of the command.
    pub plan: Plan,
    /// Whether the line of the command was read.
    pub is_whole: bool,
}

/// Returns whether the plan has an offset of the replica.
fn has_offset_of(plan: &Plan, replica: u64) -> bool
    ensures { result ≡ has_offset plan.now replica }
{
    plan.offsets.as_slice().iter().any(|o| o.replica == replica)
}

/// Returns whether the plan has a delay between the two replicas.
fn has_delay_of(plan: &Plan, from: u64, to: u64) -> bool
    ensures { result ≡ has_delay plan.now from to }
{
    plan.delays
        .as_slice()
        .iter()
        .any(|d| d.from == from && d.to == to)
}

impl Draft {
    /// Returns the draft of a plan with `n` replicas and no further line.
    pub(crate) fn new(alloc: Global, n: u64) -> Draft
        ensures { result ≡ empty n }
    {
        let plan = Plan {
            n,
            offsets: Offsets::new(alloc),
            delays: Delays::new(alloc),
            origin: 0,
            at: 0,
        };
        Draft {
            plan,
            is_whole: false,
        }
    }

    /// Returns whether the line can follow: its numbers are within their bounds, it repeats no line, and no command was
    /// read.
    pub(crate) fn allows(&self, line: PlanLine) -> bool
        ensures { result ≡ can_follow self.now line }
    {
        if self.is_whole {
            return false;
        }
        let n = self.plan.n;
        match line {
            PlanLine::Offset { replica, by } => {
                replica < n && by <= MOST_MOMENT && !has_offset_of(&self.plan, replica)
            }
            PlanLine::Delay { from, to, by } => {
                from < n
                    && to < n
                    && from != to
                    && by <= MOST_DELAY
                    && !has_delay_of(&self.plan, from, to)
            }
            PlanLine::Command { replica, at } => {
                let ahead = offset_of(&self.plan, replica);
                replica < n && at <= MOST_MOMENT && (at > 0 || ahead > 0)
            }
        }
    }

    /// Adds a line. `NoMemory` if memory runs out; nothing is added then.
    pub(crate) fn add(&mut self, line: PlanLine) -> Result<(), NoMemory>
        ensures ok { OnOk result (self.new ≡ with_line self.old line) }
        ensures err { OnErr result (self.new ≡ self.old) }
    {
        match line {
            PlanLine::Offset { replica, by } => {
                self.plan.offsets.push(Offset { replica, by })?;
            }
            PlanLine::Delay { from, to, by } => {
                self.plan.delays.push(Delay { from, to, by })?;
            }
            PlanLine::Command { replica, at } => {
                self.plan.origin = replica;
                self.plan.at = at;
                self.is_whole = true;
            }
        }
        Ok(())
    }
}
