//! Laws of clients' numbers in every lawful history of a cluster, each as the contract of a function that runs no code:
//! a request that is sent again, to the same node or to another, is done once, and every answer tells that.
#![tactic(auto)]

ghost use Rattle.crsm_law_replies.specs.Laws.{NumbersChangeKeysOnce, RepliesTellTheFirst};

use crsm_law_cluster::{answers_are_right, log_files_agree};
use crsm_law_once::{answers_tell_the_first, old_numbers_change_nothing, one_changes_keys};

/// Each answer that a node sends is that to the first entry of the client's number in the one list, or says that the
/// number is stale; every other entry of the number changes nothing.
pub fn replies_tell_the_first()
    ensures { RepliesTellTheFirst }
{
    answers_are_right();
    answers_tell_the_first();
    old_numbers_change_nothing();
}

/// In the executed lists of all log files, at all moments, a client's number changes the keys at one place at most.
pub fn numbers_change_keys_once()
    ensures { NumbersChangeKeysOnce }
{
    log_files_agree();
    one_changes_keys();
}
