//! The messages by number, and the size of the log bodies.

use crate::sent::Packets;
use std::alloc::Global;

/// All messages sent, by number, and the world's size in bytes.
#[derive(Drop)]
pub(crate) struct MpNetwork {
    pub(crate) alloc: Global,
    pub(crate) sent: Packets,
    /// The fresh messages with numbers below `fresh_end`, in ascending order. It may also have used ones.
    pub(crate) fresh: Vec<u64>,
    pub(crate) fresh_end: u64,
    /// The replicas that were up at the last query of `due`.
    pub(crate) ups: Vec<bool>,
    /// The candidates of the next query below `near_end`, in ascending order: the fresh messages whose receivers were
    /// up then, and some others. All messages from `near_end` on are candidates, too.
    pub(crate) near: Vec<u64>,
    pub(crate) near_end: u64,
    /// The bytes of all log bodies together.
    pub(crate) bytes: u64,
}
