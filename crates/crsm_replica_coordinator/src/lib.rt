//! The coordinator of a replica: the collection of an epoch's frozen logs, or the proposal of a decision.
#![tactic(auto)]

mod changes;
mod coordinator;
mod gathering;
mod proposals;
mod readers;

pub use coordinator::{Coordinator, Retry, Stage, Voted};
