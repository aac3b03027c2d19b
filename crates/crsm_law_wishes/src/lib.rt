//! Laws of the turns that a node takes, each as the contract of a function that runs no code: whom it suspects, and
//! when it ticks, by the readings of its own clock.
#![tactic(auto)]

ghost use Rattle.crsm_law_wishes.specs.Example.{ReplicasAreSuspected};
ghost use Rattle.crsm_law_wishes.specs.Laws.{HeardAreNotSuspected, OthersAreSuspected, SuspicionsAreSpaced, TicksAreTimely};

use crsm_replica_detector::turns_append;

/// A node that suspects others keeps each replica of the Spec that it has heard within the last 5 seconds. A replica
/// not yet heard counts as heard at the node's first turn.
pub fn heard_are_not_suspected()
    ensures { HeardAreNotSuspected }
{
    turns_append();
}

/// A node that suspects others keeps none, besides itself, that it has not heard for 5 seconds or more.
pub fn others_are_suspected()
    ensures { OthersAreSuspected }
{
    turns_append();
}

/// A node that suspected others does so again after 5 seconds at the earliest.
pub fn suspicions_are_spaced()
    ensures { SuspicionsAreSpaced }
{
    turns_append();
}

/// If 10 milliseconds have passed since a node's last tick, its next turn is a tick.
pub fn ticks_are_timely()
    ensures { TicksAreTimely }
{
    turns_append();
}

/// There are such turns: a node keeps one replica, which it has just heard, and suspects another, so the premises of
/// these laws can be met.
pub fn replicas_are_suspected()
    ensures { ReplicasAreSuspected }
{}
