//! The command `dump`: it reads the log file of a node, and writes what the log says.
#![tactic(auto)]

mod catalog;
mod command;
mod ending;
mod file;
mod input;
mod part;
mod text;

pub use command::{dump, dumps_are_one};
pub use ending::DumpEnd;
pub use part::Part;
