//! The pending events of a plan: a list of them, kept while the plan is followed event by event, becomes empty. This
//! rests on the lines of an event, which name each datagram that the event sends.
#![tactic(auto)]

ghost use Rattle.crsm_law_pending.specs.Posts.{SendsAreTold};
ghost use Rattle.crsm_law_pending.specs.Following.{AgendasBegin, AgendasEnd, AgendasGoOn};

use crsm_fact_step::steps_are_changes;
use crsm_law_timing::events_end_whole;

/// The lines of a step name each datagram that it sends, in order, with its number, and no others.
pub fn sends_are_told()
    ensures { SendsAreTold }
{
    steps_are_changes();
}

/// Before anything was sent, the pending events are the command's arrival and the ticks.
pub fn agendas_begin()
    ensures { AgendasBegin }
{}

/// The first pending event is the next one. The others, with the deliveries of what it sends inserted, are the pending
/// events after it, and its lines name these datagrams.
pub fn agendas_go_on()
    ensures { AgendasGoOn }
{
    sends_are_told();
}

/// Once no event is pending, what has happened is a timeline; and this takes a bounded number of events.
pub fn agendas_end()
    ensures { AgendasEnd }
{
    events_end_whole();
}
