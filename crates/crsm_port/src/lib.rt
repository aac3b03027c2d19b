//! Datagram ports over memory and over UDP sockets, with counters of faults, losses and empty receives.
#![tactic(auto)]

mod address;
mod cluster;
mod memory;
mod port;
mod sent_packets;
mod udp;

pub use address::{from_number, number};
pub use cluster::ClusterPort;
pub use memory::MemPort;
pub use port::{Port, Recv};
pub use sent_packets::SentPackets;
pub use udp::UdpPort;
