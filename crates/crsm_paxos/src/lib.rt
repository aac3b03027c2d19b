//! One instance of consensus at one replica: what it promises and accepts, and its own proposal.
#![tactic(auto)]

mod acceptor;
mod proposer;
mod readers;

pub use acceptor::{Accepted, Acceptor, Promised};
pub use proposer::{Next, Proposer};
