//! Laws within an epoch, about timestamps, links and votes, in every world that a cluster reaches.
#![tactic(auto)]

ghost use Rattle.crsm_law_epoch.specs.Worlds.{EpochsHold};
ghost use Rattle.crsm_law_epoch.specs.LogWorlds.{LogsFit, DecisionsAreOrdered, EpochsHoldAlways};
ghost use Rattle.crsm_law_epoch.specs.CommitWorlds.{CommitsAreWitnessed};

/// In every world reached with well-formed logs the facts of all epochs hold: the entry in a frame was logged by its
/// sender, links keep their order, an epoch and timestamp have one entry, and votes name replicas that logged.
pub fn epochs_hold()
    ensures { EpochsHold }
{}

/// Each record of each log may follow those before it.
pub fn logs_fit()
    ensures { LogsFit }
{}

/// The members of each recorded decision strictly rise and are below 15.
pub fn decisions_are_ordered()
    ensures { DecisionsAreOrdered }
{}

/// The facts of all epochs hold in every world reached: the entry in a frame was logged by its sender, links keep their
/// order, an epoch and timestamp have one entry, and votes name replicas that logged.
pub fn epochs_hold_always()
    ensures { EpochsHoldAlways }
{}

/// In every world reached, a committed entry was logged by a majority of its epoch's Spec, and every entry that a
/// member stamps with an earlier timestamp in that epoch, at any time, had been logged at the commit.
pub fn commits_are_witnessed()
    ensures { CommitsAreWitnessed }
{}
