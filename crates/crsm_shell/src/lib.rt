//! One running replica: the core of its log, its disk, and the steps whose records are not durable yet.
//!
//! A step is taken, and is pending; a flush puts the records of all pending steps into the log as one body, and then
//! sends. So a crash leaves all of them or none, and nothing is sent whose records may be lost.
#![tactic(auto)]

mod again;
mod begin;
mod boot;
mod errors;
mod flush;
mod keep;
mod laws;
mod make;
mod readers;
mod shell;
mod stopped;
mod take;
mod turn;
mod turned;

pub use again::BootedAgain;
pub use boot::Booted;
pub use crsm_replica_io::{ReceivedInput, WantedInput};
pub use errors::{BootError, TurnError};
pub use laws::{empty_files_have_empty_logs, logs_are_not_bad, logs_are_one};
pub use shell::Shell;
pub use stopped::StoppedLog;
pub use turned::TurnResult;
