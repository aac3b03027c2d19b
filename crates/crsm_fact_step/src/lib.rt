//! Facts about a single step of a replica: one walk over all its rules, for every proof about steps.
//!
//! Each step is a sequence of changes of a few kinds, and each change carries the conditions that its rule has checked.
//! So a proof about steps is an induction over changes and never mentions a rule. None of these facts is about a world
//! or a run.
#![tactic(auto)]

ghost use Rattle.crsm_fact_step.specs.Changes.{StepsAreChanges};
ghost use Rattle.crsm_fact_step.specs.Steps.{StepsFit, BatchesAreLogged, TimesRise, IgnoredInputsEnd};

/// Every step of every replica, on any input at any clock reading, is a sequence of changes.
pub fn steps_are_changes()
    ensures { StepsAreChanges }
{}

/// Each record that a step writes may follow those before it.
pub fn steps_fit()
    ensures { StepsFit }
{}

/// The log after a step is the log before it with the step's records appended.
pub fn batches_are_logged()
    ensures { BatchesAreLogged }
{}

/// The times that a replica issues in an epoch strictly rise, whatever its clock reads.
pub fn times_rise()
    ensures { TimesRise }
{}

/// An ignored input still has the rest of its step: pending acknowledgements, clock time, commits and replies.
pub fn ignored_inputs_end()
    ensures { IgnoredInputsEnd }
{}
