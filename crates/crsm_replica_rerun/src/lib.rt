//! The replay of a node's sheet: the records, datagrams and replies of a replica at each line.
#![tactic(auto)]

mod boot;
mod ending;
mod error;
mod laws;
mod lines;
mod rerun;
mod stage;
mod step;
mod text;

pub use error::RerunError;
pub use laws::{bad_logs_are_one, sheets_have_one_text};
pub use rerun::Rerun;
pub use text::push_step;
