//! Comparisons of stamps, ballots and entries, each equal to its definition in `specs/Order`.

ghost use Rattle.std.specs.Prelude.{◌≡◌};
ghost use Rattle.crsm_base.specs.Order.{ballot_eq, ballot_lt, entry_lt, stamp_eq, stamp_lt};

use crate::command::Entry;
use crate::stamp::{Ballot, Stamp};

/// Returns whether stamp `a` is before `b`: by time, then by origin.
#[tactic(auto, unfolding(crate::specs::Order::stamp_lt))]
pub fn stamp_precedes(a: Stamp, b: Stamp) -> bool
    ensures { result ≡ stamp_lt a b }
{
    a < b
}

/// Returns whether the stamps are equal.
#[tactic(auto, unfolding(crate::specs::Order::stamp_eq))]
pub fn is_same_stamp(a: Stamp, b: Stamp) -> bool
    ensures { result ≡ stamp_eq a b }
{
    a == b
}

/// Returns whether ballot `a` is before `b`: by round, then by proposer.
#[tactic(auto, unfolding(crate::specs::Order::ballot_lt))]
pub fn ballot_precedes(a: Ballot, b: Ballot) -> bool
    ensures { result ≡ ballot_lt a b }
{
    a < b
}

/// Returns whether the ballots are equal.
#[tactic(auto, unfolding(crate::specs::Order::ballot_eq))]
pub fn is_same_ballot(a: Ballot, b: Ballot) -> bool
    ensures { result ≡ ballot_eq a b }
{
    a == b
}

/// Returns whether entry `a` is before `b` in the global order: by epoch, then by stamp.
#[tactic(auto, unfolding(crate::specs::Order::entry_lt))]
pub fn entry_precedes(a: &Entry, b: &Entry) -> bool
    ensures { result ≡ entry_lt a.now b.now }
{
    a.epoch < b.epoch || (a.epoch == b.epoch && stamp_precedes(a.stamp, b.stamp))
}
