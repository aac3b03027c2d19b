//! The text of a node's sheet: the log bodies that the node found, and the input of each of its turns.
#![tactic(auto)]

mod laws;
mod line;
mod print;
mod read;

pub use crsm_text::LineError;
pub use laws::{lines_have_no_feed, lines_have_one_text, sheets_are_one};
pub use line::SheetLine;
pub use print::{print_sheet, push_entry, push_in};
pub use read::read_sheet;
