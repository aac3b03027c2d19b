//! Laws of running nodes, in every lawful history of a cluster. A world of the definitions shows what the processes and
//! the network did (`HistoryLaws`); so log files and replies agree (`ClusterLaws`), and clients are answered in real
//! time, once, for what they requested (`RequestLaws`).
#![tactic(auto)]

ghost use Rattle.crsm_law_cluster.specs.ClusterLaws.{ListsAreOne, LogFilesGrow, DecisionsAgree, LogFilesAreDurable, AnswersAreRight, AnsweredAreDurable};
ghost use Rattle.crsm_law_cluster.specs.HistoryLaws.{HistoriesAreShown, LogFilesAgree};
ghost use Rattle.crsm_law_cluster.specs.RequestLaws.{EntriesWereSubmitted, RealTimeIsKept, RepliesReachWhoAsked, RepliesGoOutOnce};

/// Each lawful history of a cluster that began with at most 15 replicas is shown by a world that happenings reach, and
/// each moment of it by a world on the way there.
pub fn histories_are_shown()
    ensures { HistoriesAreShown }
{}

/// Of the executed lists of two log files, at any moments of a lawful history, one is a prefix of the other.
pub fn log_files_agree()
    ensures { LogFilesAgree }
{}

/// The executed lists of all log files, at all moments, are prefixes of one list, which rises by epoch and stamp.
pub fn lists_are_one()
    ensures { ListsAreOne }
{}

/// Executed entries of a log file keep their places, whichever processes are killed and restarted.
pub fn log_files_grow()
    ensures { LogFilesGrow }
{}

/// Decisions of one epoch are equal, and the beginning of each epoch agrees with the one list.
pub fn decisions_agree()
    ensures { DecisionsAgree }
{}

/// An entry that some log file has as executed is held by a majority from then on, and each later epoch begins with it.
pub fn log_files_are_durable()
    ensures { LogFilesAreDurable }
{}

/// Each answer sent is the sequential store's at its place of the one list, and a command reported as dropped is in no
/// list.
pub fn answers_are_right()
    ensures { AnswersAreRight }
{}

/// From the moment that an answer is sent, its entry is held by a majority, and each later epoch begins with it.
pub fn answered_are_durable()
    ensures { AnsweredAreDurable }
{}

/// Each entry of the one list was submitted at its origin, by a request, before it was executed anywhere.
pub fn entries_were_submitted()
    ensures { EntriesWereSubmitted }
{}

/// An entry submitted after an answer was sent has a later place in the list than the answered one.
pub fn real_time_is_kept()
    ensures { RealTimeIsKept }
{}

/// Each reply is sent to the address that its request came from.
pub fn replies_reach_who_asked()
    ensures { RepliesReachWhoAsked }
{}

/// No entry is replied to twice, whichever processes are killed and restarted.
pub fn replies_go_out_once()
    ensures { RepliesGoOutOnce }
{}
