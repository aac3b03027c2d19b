//! The failure detector of a node: the input to take next, by the readings at which it received from others.
#![tactic(auto)]

mod detector;
mod laws;
mod timers;

pub use detector::Detector;
pub use laws::{inputs_are_wished, suspicions_can_be_members, turns_append, turns_are_watched};
