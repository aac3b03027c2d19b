//! The timeline of a plan: a world follows the plan, and each datagram that it sends is delivered in time.

ghost use Rattle.std.specs.Prelude.{◌≡◌, ◌∷◌, ◌++◌, [], List, IfErr, IfOk, MatchOption, Ok, OnOk};
ghost use Rattle.crsm_spec_plan.specs.Plans.{FitsPlan};
ghost use Rattle.crsm_delay.specs.Following.{AddsTimeline, Follows, IsFollowed};
ghost use Rattle.crsm_delay.specs.Upcoming.{listed};
ghost use Rattle.crsm_delay.specs.declared.upcoming.Upcoming.{Upcoming as Done};

use crate::agenda::Agenda;
use crate::upcoming::Upcoming;
use crsm_base::{Bytes, Lines, NoMemory};
use crsm_law_pending::{agendas_end, agendas_go_on};
use crsm_law_timing::events_can_happen;
use crsm_spec_plan::Plan;
use crsm_text::push_named;
use crsm_world::{Bad, World};
use std::alloc::Global;

/// Upper bound of the number of events in a timeline.
const MORE_EVENTS: u64 = 1_000_000;

/// Returns the lines of an event that was not refused.
fn unless_refused(stepped: Result<Lines, Bad>) -> Result<Lines, NoMemory>
    requires { IfErr stepped (λ bad. bad ≡ Bad.NoMemory) }
    ensures { IfOk result (λ lines. stepped ≡ Ok lines) }
{
    match stepped {
        Ok(lines) => Ok(lines),
        Err(bad) => {
            prove!(bad == Bad::NoMemory);
            Err(NoMemory)
        }
    }
}

/// The run of a plan's timeline: the world, and the events still to happen.
#[derive(Drop)]
pub(crate) struct TimelineRun {
    alloc: Global,
    world: World,
    agenda: Agenda,
}

impl TimelineRun {
    /// Returns the run once the replicas have booted.
    fn new(alloc: Global, plan: &Plan) -> Result<TimelineRun, NoMemory>
        requires { FitsPlan plan.now }
        ensures { IfOk result (λ run. Follows plan.now [] run) }
    {
        let agenda = Agenda::new(alloc, plan)?;
        let (mut world, lines) = World::new(alloc, plan.n as u32)?;
        world.take_back(lines);
        Ok(TimelineRun {
            alloc,
            world,
            agenda,
        })
    }

    /// Executes the next event, which is possible, and returns it, or `None` if no event is left.
    fn step(&mut self, plan: &Plan) -> Result<Option<Upcoming>, NoMemory>
        requires fits { FitsPlan plan.now }
        requires followed { IsFollowed plan.now self.old }
        ensures { (done : List Done) → Follows plan.now done self.old →
            IfOk result (λ next. MatchOption next (listed self.old.agenda ≡ []) (λ u. Follows plan.now (done ++ u ∷ []) self.new)) }
    {
        events_can_happen();
        agendas_go_on();
        let Some(next) = self.agenda.next() else {
            return Ok(None);
        };
        let event = next.event(self.alloc)?;
        let stepped = self.world.step(&event);
        drop(event);
        let lines = unless_refused(stepped)?;
        self.agenda.add_sent(plan, next.moment, lines.as_slice())?;
        self.world.take_back(lines);
        Ok(Some(next))
    }
}

/// Appends the number of replicas, and each event of a run that begins. `NoMemory` if memory runs out.
fn push_events(text: &mut Bytes, plan: &Plan, run: &mut TimelineRun) -> Result<(), NoMemory>
    requires fits { FitsPlan plan.now }
    requires begins { Follows plan.now [] run.old }
    ensures { OnOk result (AddsTimeline plan.now text.old text.new) }
{
    events_can_happen();
    agendas_end();
    push_named(text, b"replicas", &[plan.n])?;
    text.push(b'\n')?;
    for _ in 0..MORE_EVENTS {
        let Some(next) = run.step(plan)? else {
            return Ok(());
        };
        next.push_to(text)?;
    }
    // A timeline has fewer events.
    Ok(())
}

/// Appends the schedule of a plan's timeline: the number of replicas, and each event. `NoMemory` if memory runs out.
pub(crate) fn push_timeline(alloc: Global, text: &mut Bytes, plan: &Plan) -> Result<(), NoMemory>
    requires { FitsPlan plan.now }
    ensures { OnOk result (AddsTimeline plan.now text.old text.new) }
{
    let mut run = TimelineRun::new(alloc, plan)?;
    let pushed = push_events(text, plan, &mut run);
    drop(run);
    pushed
}
