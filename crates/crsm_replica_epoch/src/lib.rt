//! The state of an epoch at a running replica: its clock, the times received, the entries that are not executed, the
//! pending acknowledgements, and its links.
#![tactic(auto)]

mod changes;
mod link;
mod links;
mod readers;
mod records;
mod state;

pub use state::EpochState;
