//! Laws of what clients of running nodes are shown, each as the contract of a function that runs no code: what `client`
//! writes is the store's answer, and what `lock` writes is a grant, a release or the holder.
#![tactic(auto)]

ghost use Rattle.crsm_law_shown.specs.Laws.{ClientsAreShownTheStore, GrantsAreOrdered, LocksAreShownAsTheyAre};

use crsm_law_cluster::entries_were_submitted;
use crsm_law_locks::{fences_rise, grants_are_own, held_by_last_grant};
use crsm_law_once::{new_numbers_are_executed, one_changes_keys, passed_numbers_are_stale};
use crsm_law_replies::replies_tell_the_first;
use crsm_lease::asked_are_grants_or_returns;

/// The answer that `client` writes is the store's at a place of the one list at which its command stands, submitted by
/// a request of it. Without an answer it is open whether the command is done; if it is, then once.
pub fn clients_are_shown_the_store()
    ensures { ClientsAreShownTheStore }
{
    replies_tell_the_first();
    entries_were_submitted();
    one_changes_keys();
}

/// A grant, a release, a holder or a free lock that `lock` writes is one in the one list.
pub fn locks_are_shown_as_they_are()
    ensures { LocksAreShownAsTheyAre }
{
    replies_tell_the_first();
    entries_were_submitted();
    one_changes_keys();
    new_numbers_are_executed();
    passed_numbers_are_stale();
    asked_are_grants_or_returns();
    held_by_last_grant();
}

/// Of two clients that were shown a grant of one key, one has the greater fencing token, and its grant stands later.
pub fn grants_are_ordered()
    ensures { GrantsAreOrdered }
{
    fences_rise();
    grants_are_own();
}
