//! The events still to happen by a plan, in order.

ghost use Rattle.std.specs.Prelude.{◌≡◌, ◌≤◌, ◌<◌, ◌+◌, ◌∷◌, [], ℕ, List, IfOk, OnOk, MatchOption, length, take, drop};
ghost use Rattle.std.specs.List.{AllByRecursion};
ghost use Rattle.crsm_law_pending.specs.Agendas.{IsAgenda, IsPending, IsPut, LacksPosts, delivery_of};
ghost use Rattle.crsm_law_pending.specs.Posts as sends;
ghost use Rattle.crsm_spec_plan.specs.Plans.{FitsPlan};
ghost use Rattle.crsm_spec_plan.specs.Timelines.{Precedes, Timed};
ghost use Rattle.crsm_delay.specs.Upcoming.{IsAheadOf, listed, on_paper, timed_of};

use crate::moments::{delay_of, reading_of};
use crate::upcoming::{Upcoming, UpcomingKind, request, tick};
use crsm_base::{Line, NoMemory};
use crsm_law_pending::{agendas_begin, agendas_go_on};
use crsm_spec_plan::Plan;
use std::alloc::Global;

/// A datagram that was sent: its number, sender and receiver.
#[derive(Clone, Copy, Debug, PartialEq, Eq)]
pub(crate) struct Post {
    pub number: u64,
    pub from: u64,
    pub to: u64,
}

/// Returns the datagram whose sending a line reports, or `None`.
#[tactic(auto, unfolding(crsm_law_pending::specs::Posts::post_of))]
fn post_of(line: &Line) -> Option<Post>
    ensures { MatchOption result (sends.post_of line.now ≡ []) (λ p. sends.post_of line.now ≡ on_paper p ∷ []) }
{
    match line {
        Line::Send {
            index,
            from,
            to,
            ..
        } => Some(Post {
            number: *index,
            from: u64::from(*from),
            to: u64::from(*to),
        }),
        _ => None,
    }
}

/// Returns the delivery of a datagram that was sent at the moment `sent`.
#[tactic(auto, unfolding(crsm_law_pending::specs::Agendas::delivery_of))]
fn delivery(plan: &Plan, post: Post, sent: u64) -> Upcoming
    requires fits { FitsPlan plan.now }
    requires soon { sent ≤ 3000000000000 }
    ensures { timed_of result ≡ delivery_of plan.now sent (on_paper post) }
{
    let moment = sent + delay_of(plan, post.from, post.to);
    Upcoming {
        moment,
        kind: UpcomingKind::Go {
            number: post.number,
            reading: reading_of(plan, post.to, moment),
        },
    }
}

/// Returns the number of events in an ordered list that happen before this one.
fn place_of(events: &[Upcoming], event: Upcoming) -> usize
    ensures bound { result ≤ length events.now }
    ensures behind { AllByRecursion (λ g. Precedes (timed_of event) (timed_of g) → ⊥) (take result events.now) }
    ensures ahead { IsAheadOf event (drop result events.now) }
{
    for (i, other) in events.iter().enumerate() {
        if event.precedes(*other) {
            return i;
        }
    }
    events.len()
}

/// A list of events still to happen, the next one first.
#[derive(Drop)]
pub(crate) struct Agenda {
    events: Vec<Upcoming>,
}

impl Agenda {
    /// Returns the events of a plan before anything was sent: the command and the ticks. `NoMemory` if memory runs out.
    pub(crate) fn new(alloc: Global, plan: &Plan) -> Result<Agenda, NoMemory>
        requires { FitsPlan plan.now }
        ensures { IfOk result (λ agenda. IsAgenda plan.now [] (listed agenda)) }
    {
        agendas_begin();
        let mut agenda = Agenda {
            events: Vec::new(alloc),
        };
        agenda.add(request(plan))?;
        for k in 0..plan.n {
            agenda.add_tick(plan, k)?;
        }
        Ok(agenda)
    }

    /// Inserts an event by its moment. `NoMemory` if memory runs out.
    fn add(&mut self, event: Upcoming) -> Result<(), NoMemory>
        ensures { OnOk result (IsPut (timed_of event) (listed self.old) (listed self.new)) }
    {
        let place = place_of(self.events.as_slice(), event);
        self.events.insert(place, event)?;
        Ok(())
    }

    /// Inserts the tick of a replica, if it has one. `NoMemory` if memory runs out.
    fn add_tick(&mut self, plan: &Plan, k: u64) -> Result<(), NoMemory>
        requires fits { FitsPlan plan.now }
        requires below { k < plan.now.n }
        ensures { IsPending plan.now [] (1 + k) (listed self.old) → OnOk result (IsPending plan.now [] (2 + k) (listed self.new)) }
    {
        agendas_begin();
        if k == plan.origin {
            return Ok(());
        }
        let Some(event) = tick(plan, k) else {
            return Ok(());
        };
        self.add(event)
    }

    /// Inserts the delivery of each datagram that these lines report as sent at this moment. `NoMemory` if memory runs
    /// out.
    pub(crate) fn add_sent(
        &mut self,
        plan: &Plan,
        moment: u64,
        lines: &[Line],
    ) -> Result<(), NoMemory>
        requires fits { FitsPlan plan.now }
        requires soon { moment ≤ 3000000000000 }
        ensures { (es : List Timed) → LacksPosts plan.now es (listed self.old) (sends.posts lines.now) moment → OnOk result (IsAgenda plan.now es (listed self.new)) }
    {
        agendas_go_on();
        for line in lines {
            if let Some(post) = post_of(line) {
                self.add(delivery(plan, post, moment))?;
            }
        }
        Ok(())
    }

    /// Removes and returns the next event, or `None` if no event is left.
    pub(crate) fn next(&mut self) -> Option<Upcoming>
        ensures { MatchOption result (listed self.old ≡ []) (λ u. listed self.old ≡ timed_of u ∷ listed self.new) }
    {
        if self.events.is_empty() {
            None
        } else {
            Some(self.events.remove(0))
        }
    }
}
