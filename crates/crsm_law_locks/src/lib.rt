//! Laws of locks, each as the contract of a function that runs no code. They are about a list of entries whose commands
//! on a key are those of taking, giving back and breaking a lock, and about the sequential store.
#![tactic(auto)]

ghost use Rattle.crsm_law_locks.specs.Example.{LocksChangeHands};
ghost use Rattle.crsm_law_locks.specs.Laws.{FencesRise, GrantsAreOwn, HeldByLastGrant, ReturnedOrBroken};

use crsm_lease::{asked_are_grants_or_returns, locks_have_one_value};

/// A lock is granted to the client that asked for it.
pub fn grants_are_own()
    ensures { GrantsAreOwn }
{
    locks_have_one_value();
    asked_are_grants_or_returns();
}

/// The fencing tokens of the grants of a key strictly rise.
pub fn fences_rise()
    ensures { FencesRise }
{
    locks_have_one_value();
    asked_are_grants_or_returns();
}

/// After each entry, a key is held if and only if there was a grant and the last one was not given back; its owner and
/// token are then those of that grant.
pub fn held_by_last_grant()
    ensures { HeldByLastGrant }
{
    locks_have_one_value();
    asked_are_grants_or_returns();
}

/// Of two successive grants, the first was given back before the second, or the second breaks the lock of another
/// owner.
pub fn returned_or_broken()
    ensures { ReturnedOrBroken }
{
    locks_have_one_value();
    asked_are_grants_or_returns();
}

/// There is a list in which a lock is given back, taken and broken, and a repeated command grants nothing, so the
/// premises of these laws can be met.
pub fn locks_change_hands()
    ensures { LocksChangeHands }
{}
