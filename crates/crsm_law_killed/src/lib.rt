//! A node that is killed: its run over devices that take so many calls, and then none, has the contract of every run, and
//! these calls made what the killed process left.
#![tactic(auto)]

mod calls;
mod disk;
mod port;
mod refused;
mod run;
mod sheet;

pub use refused::Refused;
pub use run::{Calls, Left, run_until_killed};
