//! The output of a machine's step and boot.

use crsm_base::Lines;
use crsm_replica_output::Batch;

/// The output of a step.
#[derive(Drop)]
pub struct Step {
    pub batch: Batch,
    /// The length in bytes of its records on the disk.
    pub size: u64,
}

/// The output of a boot. It sends nothing.
#[derive(Drop)]
pub struct Boot {
    pub lines: Lines,
    /// The length in bytes of its records on the disk.
    pub size: u64,
}
