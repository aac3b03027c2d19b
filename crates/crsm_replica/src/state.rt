//! The state of a replica in memory.

use crate::gathered::Gathered;
use crsm_base::Entry;
use crsm_ledger::Ledger;
use crsm_replica_coordinator::Coordinator;
use crsm_replica_epoch::EpochState;
use crsm_replica_output::Output;
use std::alloc::Global;

/// A client that waits for an entry submitted here, with its address, IPv4 x 65,536 + port.
#[derive(Drop)]
pub struct Waiting {
    pub address: u64,
    pub entry: Entry,
}

/// The state of a running replica with the output of the current step. After an error it is spent, and its fields are
/// unspecified.
#[derive(Drop)]
pub struct ReplicaState {
    pub(crate) alloc: Global,
    pub(crate) me: u32,
    pub(crate) ledger: Ledger,
    pub(crate) epoch_state: EpochState,
    pub(crate) gathered: Gathered,
    pub(crate) coordinator: Coordinator,
    /// Number of control messages that this boot has made.
    pub(crate) made: u64,
    /// In order of submission.
    pub(crate) waiting: Vec<Waiting>,
    pub(crate) output: Output,
}
