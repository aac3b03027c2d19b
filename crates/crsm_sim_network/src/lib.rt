//! The datagrams sent in a world: sender and receiver of each, which are fresh, and the world's size in bytes. A tally
//! counts them by class, and finds the j-th of some classes, without a walk over all of them.
#![tactic(auto)]

mod blocks;
mod counts;
mod fresh;
mod network;
mod packets;
mod receivers;
mod sending;
mod sorted;
mod tally;

pub use network::Network;
pub use packets::PacketView;
pub use receivers::Receivers;
pub use sending::packets_in;
pub use tally::{CLASSES, Tally};
