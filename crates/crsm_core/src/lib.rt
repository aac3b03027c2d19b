//! One replica in memory: each step follows the rule of its input.
#![tactic(auto)]

mod commits;
mod frames;
mod idle;
mod input;
mod laws;
mod owed;
mod parts;
mod records;
mod replica;
mod requests;
mod step;
mod ticks;

pub use crsm_replica_output::Batch;
pub use input::Input;
pub use laws::found_logs_fit;
pub use replica::Core;
