//! Clocks over memory and over the system, and the strictly rising times that a replica issues from their readings.
#![tactic(auto)]

mod clock;
mod list;
mod rising;
mod system;

pub use clock::Clock;
pub use list::ListClock;
pub use rising::{Rising, issues_rise};
pub use system::SystemClock;
