//! The liveness bound: from a calm state two calm rounds execute and answer all that was submitted.
//!
//! It is stated over the definitions of calm states and rounds in `crsm_spec`, for every possible run. The other laws
//! say what each round contributes.
#![tactic(auto)]

ghost use Rattle.crsm_spec.specs.Calm.{RoundsAreBounded};
ghost use Rattle.crsm_law_rounds.specs.Passes.{EntriesAreSpread, FramesAreTaken, LinksStayShort};

/// In each of two calm rounds, each frame that a member pushed to another before the settle is received in it.
pub fn frames_are_taken()
    ensures { FramesAreTaken }
{}

/// When the second round begins a link has at most 49 unacknowledged frames, so its ticks retransmit all of them.
pub fn links_stay_short()
    ensures { LinksStayShort }
{}

/// After the first round each member has logged what was submitted, and by the ticks of the second each member but the
/// entry's origin has acknowledged it to all.
pub fn entries_are_spread()
    ensures { EntriesAreSpread }
{}

/// In every possible run of 1 to 15 replicas, two calm rounds from a calm state execute at each member all that was
/// submitted in the epoch and logged at its origin, and answer each client that waits at a member.
pub fn rounds_are_bounded()
    ensures { RoundsAreBounded }
{}
