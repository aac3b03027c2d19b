//! Laws of single moments and of runs: each moment of a run is a happening of one of a few kinds.
//!
//! A law about runs is an induction over happenings and never mentions an act; the changes of a step say what it does.
#![tactic(auto)]

ghost use Rattle.crsm_law_steps.specs.Laws.{LogsGrow, KeptBeforeSent, RunsAreReached};

/// Every moment of every possible run is a happening, so happenings reach every world of the run.
pub fn runs_are_reached()
    ensures { RunsAreReached }
{}

/// No log of any run ever loses a record, whatever happens: stops, restarts and rival coordinators included.
pub fn logs_grow()
    ensures { LogsGrow }
{}

/// A step that stops before its records are kept sends no datagram and no reply.
pub fn kept_before_sent()
    ensures { KeptBeforeSent }
{}
