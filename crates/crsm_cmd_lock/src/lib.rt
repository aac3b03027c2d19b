//! Locks over a port: a client reads a lock, requests the operation of the rule, and reports the result.
#![tactic(auto)]

mod command;
mod learning;

pub use command::{LockEnd, LockOrder, lock};
