//! One replica in memory, and the single changes that a step makes to it.
#![tactic(auto)]

mod changes;
mod epochs;
mod frames;
mod gathered;
mod laws;
mod links;
mod members;
mod messages;
mod parts;
mod readers;
mod records;
mod replies;
mod state;
mod steps;
mod stopping;

pub use laws::{commits_go_on, states_are_sound};
pub use state::ReplicaState;
