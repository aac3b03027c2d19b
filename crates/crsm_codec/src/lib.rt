//! Public readers and writers of single fields and records, each the exact inverse of the other.
#![tactic(auto)]

mod commands;
mod decisions;
mod laws;
mod logged;
mod numbers;
mod outcomes;
mod records;
mod stamps;

pub use commands::{
    read_command, read_key, read_op, read_option_val, read_val, write_command, write_key, write_op,
    write_option_val, write_val,
};
pub use decisions::{
    read_decision, read_members, read_option_vote, write_decision, write_members, write_option_vote,
};
pub use laws::one_spelling_each;
pub use logged::{read_entries, read_entry, write_entries, write_entry};
pub use numbers::{
    read_replica, read_u8, read_u16, read_u32, read_u64, write_replica, write_u8, write_u16,
    write_u32, write_u64,
};
pub use outcomes::{read_answer, read_outcome, write_answer, write_outcome};
pub use records::{read_rec, read_recs, write_rec};
pub use stamps::{
    read_ballot, read_option_stamp, read_stamp, write_ballot, write_option_stamp, write_stamp,
};
