//! Agreement of decisions and of executed lists, in every world that a cluster reaches.
//!
//! The ballots of an instance are read off the logs of one moment: what was offered in them, over which promises, who
//! has accepted it, and what was chosen (`DecisionLaws`). This holds over all stops and restarts, since a replica
//! records its ballot before it asks for promises. One decision for each epoch, made of what a majority had logged,
//! makes the executed lists prefixes of one another (`ListLaws`).
#![tactic(auto)]

ghost use Rattle.crsm_law_agreement.specs.DecisionLaws.{
  BallotsHold,
  ChoicesAreOne,
  DecidedAreComplete,
  CompleteAreCollected,
  DecisionsAreOne,
  KnownAreOne,
  DecisionsAreCollected,
};
ghost use Rattle.crsm_law_agreement.specs.ListLaws.{BegunEpochsHold, ListsAgree};

/// In every world, each accepted decision was offered once in its ballot, over the promises of a majority, and each
/// recorded decision was chosen.
pub fn ballots_hold()
    ensures { BallotsHold }
{}

/// If an epoch has one Spec, all decisions after it are equal.
pub fn choices_are_one()
    ensures { ChoicesAreOne }
{}

/// Each decision that is accepted or recorded was made of the complete reports of a majority.
pub fn decided_are_complete()
    ensures { DecidedAreComplete }
{}

/// A decision made of the complete reports of a majority is a collection of the epoch, if the epoch's facts hold and it
/// has one Spec.
pub fn complete_are_collected()
    ensures { CompleteAreCollected }
{}

/// In every world all recorded decisions of one epoch are equal.
pub fn decisions_are_one()
    ensures { DecisionsAreOne }
{}

/// In every world, replicas that knew one epoch knew it by one decision, so they had the same members, Spec and start.
pub fn known_are_one()
    ensures { KnownAreOne }
{}

/// In every world, if an epoch's facts hold and it has one Spec, each decision after it is a collection of it.
pub fn decisions_are_collected()
    ensures { DecisionsAreCollected }
{}

/// Each epoch that has begun has one opening, from which lists of replicas that know it are extended by what was
/// committed, and meets the premises of the law of collection.
pub fn begun_epochs_hold()
    ensures { BegunEpochsHold }
{}

/// Of two replicas' executed lists, at any moments, one is a prefix of the other.
pub fn lists_agree()
    ensures { ListsAgree }
{}
