//! The inputs of a replica.

use crate::message::MpMessage;
use crate::shared::SharedCommand;

/// The input of one step.
#[derive(Drop)]
pub enum MpInput {
    /// A client's command.
    Request { command: SharedCommand },
    /// A message from another replica.
    Message { message: MpMessage },
    /// A tick of the clock.
    Tick,
    /// A request to the replica to become the leader.
    Lead,
}
