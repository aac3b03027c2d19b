//! A store with a leader in one process, driven by the events of a schedule: its replicas, and the messages between
//! them.
#![tactic(auto)]

mod causes;
mod deliveries;
mod ending;
mod endings;
mod events;
mod fresh;
mod lines;
mod network;
mod outgoing;
mod packets;
mod place;
mod sent;
mod site;
mod sites;
mod stops;
mod world;

pub use world::MpWorld;
