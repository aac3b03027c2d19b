//! The commands of the program: each is executed by the crate of its command.
#![tactic(auto)]

mod command;
mod doing;
mod dumping;
mod locking;
mod status;

pub use command::{plan, run};
pub use crsm_node::{BootReport, Reporter, Silent};
pub use crsm_sim_schedule::Cause;
pub use crsm_text_words::DevicePlan;
pub use status::Status;
