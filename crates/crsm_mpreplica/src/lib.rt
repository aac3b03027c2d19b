//! The state of one replica of a store with a leader, and the single changes from which its rules are built.
#![tactic(auto)]

mod asking;
mod leading;
mod made;
mod note;
mod records;
mod sending;
mod slots;
mod state;
mod waiting;

pub use note::{Asking, Leading, MpReport, Note};
pub use state::MpReplica;
