//! What a running node says of itself, for the one who operates it: lines that are made from its turns.
#![tactic(auto)]

mod clocks;
mod flushes;
mod journal;
mod line;
mod refusals;
mod replicas;
mod room;
mod silence;

pub use flushes::FlushTimes;
pub use journal::Journal;
pub use line::{Level, Line};
pub use replicas::Replicas;
