//! The check of senders between a node's socket and its replica: `PeerPort` accepts a datagram that names a replica as
//! its sender from that replica's address only.
#![tactic(auto)]

mod laws;
mod peer;

pub use laws::senders_are_named;
pub use peer::PeerPort;
