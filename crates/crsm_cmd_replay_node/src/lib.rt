//! The command `replay-node`: it reads a node's sheet, and writes the records, datagrams and replies of its replica.
#![tactic(auto)]

mod cause;
mod command;
mod handling;

pub use cause::{SheetCause, told_cause};
pub use command::replay_node;
