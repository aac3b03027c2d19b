//! A simulation that a schedule drives: the lines of the schedule begin it and make its events happen, and the text of
//! what it does is written. It is the same for each store; what a store does at an event is behind a trait.
#![tactic(auto)]

mod cause;
mod handling;
mod laws;
mod replay;
mod simulation;

pub use cause::{Cause, CauseText, told_cause};
pub use laws::schedules_are_one;
pub use replay::replay_over;
pub use simulation::Simulation;
