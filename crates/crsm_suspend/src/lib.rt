//! Suspension: the answers of a replica that takes no further part in its epoch, and the collection of these answers.
#![tactic(auto)]

mod asked;
mod checks;
mod collect;
mod collection;
mod frozen;
mod got;
mod laws;
mod pages;
mod report;
mod reports;
mod sizes;
mod union;

pub use collect::Collect;
pub use frozen::page_of;
pub use got::PageOutcome;
pub use laws::got_is_by_the_rules;
pub use sizes::entry_size;
