//! The two ends of a numbered link: the sender keeps the frames that are not acknowledged, the receiver takes each
//! frame once and in order.
#![tactic(auto)]

mod frames;
mod inbound;
mod outbound;

pub use frames::Frames;
pub use inbound::{In, Take, taken_is_a_prefix};
pub use outbound::Out;
