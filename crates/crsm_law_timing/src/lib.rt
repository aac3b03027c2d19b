//! The moment at which a command commits, by the delays between replicas and the offsets of their clocks.
#![tactic(auto)]

ghost use Rattle.crsm_law_timing.specs.Commits.{CommandsCommitInTime, TimelinesArePossible, WaitsForClock};
ghost use Rattle.crsm_law_timing.specs.Moments.{MomentsAreSo};
ghost use Rattle.crsm_law_timing.specs.SoFar.{EventsCanHappen, EventsEndWhole};

/// Each timeline of a plan is possible: none of its events is refused.
pub fn timelines_are_possible()
    ensures { TimelinesArePossible }
{}

/// The events of a plan that have happened were possible, and the next one is.
pub fn events_can_happen()
    ensures { EventsCanHappen }
{}

/// Events that happen one after another, each the next one, end as a timeline, and each timeline arises so.
pub fn events_end_whole()
    ensures { EventsEndWhole }
{}

/// In each timeline of a plan each replica executes one entry, at the moment that the plan gives: when it has received
/// the last acknowledgement.
pub fn commands_commit_in_time()
    ensures { CommandsCommitInTime }
{}

/// There is a timeline in which a replica waits for its clock, so the premises of these laws can be met.
pub fn timelines_happen()
    ensures { WaitsForClock }
{}

/// The moment of a commit: a single replica executes the command at its arrival, and each of several when it has
/// received the last acknowledgement, which a replica delays until its clock is past the timestamp.
pub fn moments_are_so()
    ensures { MomentsAreSo }
{}
