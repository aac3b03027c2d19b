//! Messages with their receivers.

use crate::message::MpMessage;

/// A message to be sent to a replica.
#[derive(Drop)]
pub struct MpSend {
    /// The number of the receiver.
    pub to: u32,
    pub message: MpMessage,
}
