//! The words of the command line: `clap` splits them into a command and its values, and this crate parses the values.
#![tactic(auto)]

mod address;
mod command;
mod help;
mod order;
mod read;
mod refusal;
mod tasks;
mod usage;
mod values;

pub use address::{Addresses, read_address, read_addresses};
pub use order::{DevicePlan, DumpPart, LockAction, LockTask, NodeTask, Order, Task};
pub use read::{WordsError, read_words};
pub use usage::usage_text;
