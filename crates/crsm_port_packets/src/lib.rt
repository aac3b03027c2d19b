//! The packets of a node on the wire. `PacketsPort` sends several short datagrams to one address as one packet, and a
//! long one as several packets, so that no network has to cut it.
#![tactic(auto)]

mod bundle;
mod cutting;
mod format;
mod fragments;
mod packets;
mod peer;
mod received;
mod unpacking;

pub use packets::PacketsPort;
