//! Events drawn by the generator of a soak are possible in the world that they are drawn for.
#![tactic(auto)]

ghost use Rattle.crsm_law_draws.specs.Laws.{DrawnArePossible, DrawnFitLines, DrawnRunsArePossible, DrawnRunsGoOn, FoundersStay};

use crsm_law_runs::worlds_are_on_the_way;
use crsm_sim_generator::drawn_can_happen;

/// A drawn event is possible in a world that is not full, if the replicas are those that the cluster began with and
/// majorities are counted over all of them.
pub fn drawn_are_possible()
    ensures { DrawnArePossible }
{
    drawn_can_happen();
}

/// In a possible run of 1 to 15 replicas that starts no new one, the replica set stays the initial one: no decision
/// names another.
pub fn founders_stay()
    ensures { FoundersStay }
{
    worlds_are_on_the_way();
}

/// After a possible run of 1 to 15 replicas that started no new one, the next drawn event is possible unless the world
/// is full, and starts no new replica; so a run can be drawn event by event.
pub fn drawn_runs_go_on()
    ensures { DrawnRunsGoOn }
{
    drawn_can_happen();
    founders_stay();
}

/// After such a run a schedule line can express the next drawn event.
pub fn drawn_fit_lines()
    ensures { DrawnFitLines }
{
    founders_stay();
}

/// A whole run drawn from a seed for 1 to 15 replicas is possible: a schedule can express it, and no event is refused.
pub fn drawn_runs_are_possible()
    ensures { DrawnRunsArePossible }
{
    drawn_runs_go_on();
    drawn_fit_lines();
}
