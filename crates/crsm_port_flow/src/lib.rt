//! Retransmission and flow control between a node's socket and its replica. `FlowPort` hands up datagrams in an order
//! that the replica has use for, and sends no datagram that went out a moment ago.
#![tactic(auto)]

mod acks;
mod again;
mod clients;
mod commands;
mod datagram;
mod early;
mod flow;
mod heads;
mod hearing;
mod inbound;
mod outbound;
mod parts;
mod peers;
mod quiet;
mod repeats;
mod requests;
mod room;
mod ticks;
mod time;
mod window;

pub use flow::FlowPort;
