//! The devices around a step of a running replica: the input that it takes, the log body of its records, and its
//! outgoing datagrams.
#![tactic(auto)]

mod body;
mod input;
mod outbox;

pub use body::write_records;
pub use input::{ReceivedInput, TakeError, WantedInput, take_input};
pub use outbox::Outbox;
