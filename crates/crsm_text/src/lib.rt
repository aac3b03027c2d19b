//! Text forms shared by schedules, transcripts, sheets and command lines: numbers, keys, values, operations, members
//! and answers.
#![tactic(auto)]

mod error;
mod fields;
mod line;
mod list;
mod op;
mod outcome;
mod page;
mod print;
mod value;

pub use error::LineError;
pub use fields::{number_field, read_number, split_field, two_fields, two_numbers};
pub use line::{push_numbered, push_numbered_wide};
pub use list::{read_members, read_numbers};
pub use op::read_op;
pub use outcome::print_outcome;
pub use page::{LineNumber, Page};
pub use print::{push_answer, push_hex, push_members, push_named, push_number, push_numbers};
pub use value::hex_of;
