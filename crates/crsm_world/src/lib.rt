//! A cluster in one process, driven by the events of a schedule.
#![tactic(auto)]

mod bad;
mod causes;
mod deliveries;
mod ending;
mod endings;
mod events;
mod founders;
mod groups;
mod lines;
mod look;
mod machines;
mod outgoing;
mod replicas;
mod world;

pub use bad::Bad;
pub use world::World;
