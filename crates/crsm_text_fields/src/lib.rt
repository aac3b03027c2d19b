//! Encoding of fields and records, and parsing them from a prefix of bytes. Numbers are big endian; each value has one
//! encoding, and the parsers accept no other.
#![tactic(auto)]

mod cells;
mod command;
mod decision;
mod entries;
mod members;
mod number;
mod outcome;
mod record;
mod stamp;
mod value;
mod vote;

pub use command::{put_command, put_entry, put_op, take_command, take_entry, take_op};
pub use decision::{put_decision, take_decision};
pub use entries::{put_entries, rises, take_entries};
pub use members::{put_members, take_members};
pub use number::{
    put_u8, put_u16, put_u32, put_u64, take_replica, take_u8, take_u16, take_u32, take_u64,
};
pub use outcome::{put_answer, put_outcome, take_answer, take_outcome};
pub use record::{put_rec, take_rec};
pub use stamp::{
    put_ballot, put_option_stamp, put_stamp, take_ballot, take_option_stamp, take_stamp,
};
pub use value::{put_key, put_option_val, put_val, take_key, take_option_val, take_val};
pub use vote::{put_option_vote, take_option_vote};
