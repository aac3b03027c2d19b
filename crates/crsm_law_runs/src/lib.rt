//! Safety and durability of every possible run.
#![tactic(auto)]

ghost use Rattle.crsm_spec.specs.Safe.{IsSafe};
ghost use Rattle.crsm_law_runs.specs.Laws.{AnsweredAreKept};
ghost use Rattle.crsm_law_runs.specs.Runs.{WorldsAreOnTheWay, ListIsOne};
ghost use Rattle.crsm_law_runs.specs.DurableLaws.{DecisionsAlwaysAgree, DecisionsAreChosen, ExecutedAreDurable};

/// Every possible run of 1 to 15 replicas is safe: its executed lists agree, its answers are right, and it keeps real
/// time.
pub fn runs_are_safe()
    ensures { IsSafe }
{}

/// From its answer on, an entry is held by a majority of the replica set of its epoch, and by every later decision.
pub fn answered_are_kept()
    ensures { AnsweredAreKept }
{}

/// Happenings reach each world of a possible run of at most 15 replicas, everything in it can be encoded, and the logs
/// of the last world extend its logs.
pub fn worlds_are_on_the_way()
    ensures { WorldsAreOnTheWay }
{}

/// All executed lists of a possible run, at any moments, are prefixes of one list.
pub fn list_is_one()
    ensures { ListIsOne }
{}

/// Decisions of one epoch are equal, and the beginning of each epoch agrees with the one list.
pub fn decisions_always_agree()
    ensures { DecisionsAlwaysAgree }
{}

/// Each recorded decision was accepted in one ballot by a majority of the replica set of the epoch before it, all of
/// whom hold its base.
pub fn decisions_are_chosen()
    ensures { DecisionsAreChosen }
{}

/// An entry that some replica has executed is held by a majority from then on, at its place, and each later epoch
/// begins with it.
pub fn executed_are_durable()
    ensures { ExecutedAreDurable }
{}
