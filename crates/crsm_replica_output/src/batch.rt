//! The output of a step.

use crsm_base::{Lines, Recs, Sends};

/// The output of one step of a replica. The records must be durable before a datagram is sent.
#[derive(Drop)]
pub struct Batch {
    /// The records, in the order in which they are logged.
    pub records: Recs,
    /// The datagrams to replicas, followed by the replies to clients.
    pub sends: Sends,
    /// The lines of the records, then those of refused collections, then those of the replies.
    pub lines: Lines,
}
