//! The command `replay-mp`: it reads a schedule of a store with a leader, and writes its transcript and final lines.
#![tactic(auto)]

mod command;
mod laws;
mod print;
mod simulation;

pub use command::replay_mp;
pub use laws::schedules_are_one;
