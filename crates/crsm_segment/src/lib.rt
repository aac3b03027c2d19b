//! Control messages cut into parts and reassembled.
#![tactic(auto)]

mod cutting;
mod gather;
mod laws;
mod message;

pub use cutting::cut;
pub use gather::Gather;
pub use laws::{parts_of_datagrams, whole_messages};
pub use message::PartOutcome;
