//! The commit rule: which logged entry is executed next, and when.
//!
//! `Latest` has the latest time received from each replica, `Pending` the entries that are not executed and the
//! replicas that have logged them. An entry is ready when a majority has logged it, each member's latest time has
//! reached its time, and no entry with a lesser stamp is pending.
#![tactic(auto)]

mod latest;
mod laws;
mod pending;
mod stamps;
mod votes;

pub use latest::Latest;
pub use laws::{fewer_may_be_tracked, ready_is_exact, untracked_votes_do_not_count};
pub use pending::Pending;
