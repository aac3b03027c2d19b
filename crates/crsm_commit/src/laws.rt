//! Laws of the definitions that the contracts cite.

ghost use Rattle.crsm_commit.specs.Laws.{FewerMayBeTracked, ReadyIsExact, UntrackedDoNotCount};

/// States that a stamp is ready if and only if it may commit and no pending entry has a lesser one. It runs no code.
pub fn ready_is_exact()
    ensures { ReadyIsExact }
{}

/// States that a vote for a stamp that is not tracked need not be counted. It runs no code.
pub fn untracked_votes_do_not_count()
    ensures { UntrackedDoNotCount }
{}

/// States that a value which stands for some tracked stamps also does so for fewer. It runs no code.
pub fn fewer_may_be_tracked()
    ensures { FewerMayBeTracked }
{}
