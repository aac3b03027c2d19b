//! No number of a possible run comes near 2^64, so every record and every control message of it can be encoded.
#![tactic(auto)]

ghost use Rattle.crsm_law_bounds.specs.Bounds.{ShortLogsAreSpelt, RunsAreSpelt};

/// While no log has more than 2^50 records, each record of each log and each control message sent can be encoded.
pub fn short_logs_are_spelt()
    ensures { ShortLogsAreSpelt }
{}

/// Each record of every possible run, and each control message sent in it, can be encoded: no act is possible in a
/// world of 512 MiB, and a step adds few records, so logs stay short.
pub fn runs_are_spelt()
    ensures { RunsAreSpelt }
{}
