//! The command `replay`: it reads a schedule, and writes its transcript and final lines.
#![tactic(auto)]

mod command;
mod laws;
mod simulation;

pub use command::replay;
pub use laws::schedules_are_one;
