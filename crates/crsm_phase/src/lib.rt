//! The pending acknowledgements of a replica, and the rule by which it sends its time unasked.
#![tactic(auto)]

mod unasked;
mod waits;

pub use unasked::idle;
pub use waits::Waits;
