//! One replica of a store with a leader, in memory: each step is the rule of its input, followed by the replies to
//! clients.
#![tactic(auto)]

mod deciding;
mod electing;
mod findings;
mod learning;
mod replica;
mod replies;
mod requests;
mod same;
mod step;
mod ticks;

pub use replica::MpCore;
