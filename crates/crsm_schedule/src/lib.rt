//! The text of schedules and transcripts: schedule lines are parsed as events, and transcript lines are formatted.
#![tactic(auto)]

mod batch;
mod event;
mod numbers;
mod print;
mod read;
mod single;

pub use crsm_text::LineError;
pub use event::{Event, Single};
pub use numbers::Numbers;
pub use print::push_line;
pub use read::{read_event, read_first};
