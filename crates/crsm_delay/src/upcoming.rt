//! The events still to happen by a plan.

ghost use Rattle.std.specs.Prelude.{◌≡◌, ◌≤◌, ◌<◌, ◌++◌, ◌∷◌, [], IsTrue, ◌↔◌, None, IfOk, IfSome, OnOk};
ghost use Rattle.crsm_schedule.specs.Grammar.{event_text};
ghost use Rattle.crsm_spec_plan.specs.Plans.{FitsPlan, arrival, reading, stamped};
ghost use Rattle.crsm_spec_plan.specs.Timelines.{IsBefore, Precedes, the_command};
ghost use Rattle.crsm_spec_plan.specs.Timelines as timing;
ghost use Rattle.crsm_delay.specs.Upcoming.{IsTick, does_of, event_of, timed_of};

use crate::moments::{delay_of, offset_of, reading_of};
use crsm_base::{Bytes, Command, Key, NoMemory, Op, Val};
use crsm_schedule::{Event, Single};
use crsm_spec_plan::Plan;
use crsm_text::push_named;
use std::alloc::Global;

/// The kind of an event at a replica. A reading is of the replica's clock, in microseconds.
#[derive(Clone, Copy, Debug, PartialEq, Eq)]
pub(crate) enum UpcomingKind {
    /// The command arrives.
    Request { replica: u64, reading: u64 },
    /// The clock has passed the command's timestamp.
    Tick { replica: u64, reading: u64 },
    /// A datagram is delivered.
    Go { number: u64, reading: u64 },
}

impl UpcomingKind {
    /// Returns whether it happens before another one at the same moment: the command is first, then ticks by replica,
    /// and then deliveries by number.
    fn precedes(self, other: UpcomingKind) -> bool
        ensures { IsTrue result ↔ IsBefore (does_of self) (does_of other) }
    {
        match self {
            UpcomingKind::Request { .. } => match other {
                UpcomingKind::Request { .. } => false,
                UpcomingKind::Tick { .. } | UpcomingKind::Go { .. } => true,
            },
            UpcomingKind::Tick { replica, .. } => match other {
                UpcomingKind::Request { .. } => false,
                UpcomingKind::Tick { replica: k, .. } => replica < k,
                UpcomingKind::Go { .. } => true,
            },
            UpcomingKind::Go { number, .. } => match other {
                UpcomingKind::Request { .. } | UpcomingKind::Tick { .. } => false,
                UpcomingKind::Go { number: i, .. } => number < i,
            },
        }
    }
}

/// An event, and its moment in microseconds.
#[derive(Clone, Copy, Debug, PartialEq, Eq)]
pub(crate) struct Upcoming {
    pub moment: u64,
    pub kind: UpcomingKind,
}

impl Upcoming {
    /// Returns whether it happens before another one.
    pub(crate) fn precedes(self, other: Upcoming) -> bool
        ensures { IsTrue result ↔ Precedes (timed_of self) (timed_of other) }
    {
        if self.moment == other.moment {
            self.kind.precedes(other.kind)
        } else {
            self.moment < other.moment
        }
    }

    /// Returns the event of a schedule. `NoMemory` if memory runs out.
    pub(crate) fn event(self, alloc: Global) -> Result<Event, NoMemory>
        ensures { IfOk result (λ event. event ≡ event_of self) }
    {
        let single = match self.kind {
            UpcomingKind::Request { replica, reading } => Single::Request {
                replica,
                reading,
                command: command(alloc)?,
            },
            UpcomingKind::Tick { replica, reading } => Single::Tick { replica, reading },
            UpcomingKind::Go { number, reading } => Single::Go { number, reading },
        };
        Ok(Event::One { single })
    }

    /// Appends the line of the event. `NoMemory` if memory runs out.
    pub(crate) fn push_to(self, text: &mut Bytes) -> Result<(), NoMemory>
        ensures { OnOk result (text.new ≡ text.old ++ (event_text (event_of self) ++ 10 ∷ [])) }
    {
        match self.kind {
            UpcomingKind::Request { replica, reading } => {
                push_named(text, b"request", &[replica, reading, 7, 1])?;
                text.append(b" put 61 62\n")?;
            }
            UpcomingKind::Tick { replica, reading } => {
                push_named(text, b"tick", &[replica, reading])?;
                text.push(b'\n')?;
            }
            UpcomingKind::Go { number, reading } => {
                push_named(text, b"go", &[number, reading])?;
                text.push(b'\n')?;
            }
        }
        Ok(())
    }
}

/// Returns the command of a plan: client 7 puts a value, as its command 1.
#[tactic(auto, unfolding(crsm_spec_plan::specs::Timelines::the_command))]
fn command(alloc: Global) -> Result<Command, NoMemory>
    ensures { IfOk result (λ c. c ≡ the_command) }
{
    let key = Key::from_slice(alloc, b"a")?;
    let val = Val::from_slice(alloc, b"b")?;
    Ok(Command {
        client: 7,
        number: 1,
        op: Op::Put(key, val),
    })
}

/// Returns the arrival of the command at the origin.
#[tactic(auto, unfolding(crsm_spec_plan::specs::Timelines::request, crsm_spec_plan::specs::Plans::stamped))]
pub(crate) fn request(plan: &Plan) -> Upcoming
    requires { FitsPlan plan.now }
    ensures { timed_of result ≡ timing.request plan.now }
{
    Upcoming {
        moment: plan.at,
        kind: UpcomingKind::Request {
            replica: plan.origin,
            reading: reading_of(plan, plan.origin, plan.at),
        },
    }
}

/// Returns the tick of another replica at the first moment at which its clock is past the timestamp, or `None` if it
/// already is when the command arrives.
pub(crate) fn tick(plan: &Plan, k: u64) -> Option<Upcoming>
    requires { FitsPlan plan.now }
    ensures some { IfSome result (λ u. IsTick plan.now k u) }
    ensures none { result ≡ None → stamped plan.now < reading plan.now k (arrival plan.now k) }
{
    let past = reading_of(plan, plan.origin, plan.at) + 1;
    let arrival = plan.at + delay_of(plan, plan.origin, k);
    if reading_of(plan, k, arrival) >= past {
        return None;
    }
    Some(Upcoming {
        moment: past - offset_of(plan, k),
        kind: UpcomingKind::Tick {
            replica: k,
            reading: past,
        },
    })
}
