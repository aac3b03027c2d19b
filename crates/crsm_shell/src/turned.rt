//! The result of a turn.

use crsm_replica_io::ReceivedInput;
use crsm_replica_output::Batch;

/// The result of a step: the reading of the clock, the input that was taken, and the output.
#[derive(Drop)]
pub struct TurnResult {
    /// The reading of the clock in microseconds, since 1970 from `SystemClock`.
    pub reading: u64,
    pub taken: ReceivedInput,
    /// The replica that sent the input, if it is a frame, an acknowledgement or a part.
    pub received: Option<u32>,
    pub batch: Batch,
    /// The length in bytes of its records in the log.
    pub size: u64,
}
