//! Parts shared by all devices: fault counters, injected failures, and memory that is reserved in advance.
#![tactic(auto)]

mod count;
mod failures;

pub use count::{raise, raised_by};
pub use failures::Failures;
