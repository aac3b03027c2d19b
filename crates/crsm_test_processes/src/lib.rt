//! Runs three nodes and a client of theirs over the loopback network, each a process of the program that runs, replays
//! the sheet of each node, and says whether what each took from another is what that one's replayed sheet sends.
#![tactic(auto)]

mod fault;
mod processes;
mod sheets;
mod whole;

pub use fault::Fault;
pub use whole::trial;
