//! The output of a replica's step: records, datagrams, and the lines of the transcript.
#![tactic(auto)]

mod batch;
mod laws;
mod output;
mod sending;

pub use batch::Batch;
pub use laws::parts_are_spelt;
pub use output::{Output, Reply};
pub use sending::{send_parts, spell, spell_decision};
