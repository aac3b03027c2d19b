//! Plans: delays between replicas and offsets of their clocks, in microseconds. `specs/` defines the events of a plan
//! and the moment at which a command commits.
#![tactic(auto)]

mod plan;

pub use plan::{Delay, Delays, Offset, Offsets, Plan};
