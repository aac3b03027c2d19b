//! Bytes that are read and written again.

use crate::kind::Kind;
use crsm_base::{Bytes, NoMemory};
use crsm_codec::{
    read_answer, read_ballot, read_command, read_decision, read_entries, read_entry, read_key,
    read_members, read_op, read_option_stamp, read_option_val, read_option_vote, read_outcome,
    read_rec, read_recs, read_replica, read_stamp, read_u8, read_u16, read_u32, read_u64, read_val,
    write_answer, write_ballot, write_command, write_decision, write_entries, write_entry,
    write_key, write_members, write_op, write_option_stamp, write_option_val, write_option_vote,
    write_outcome, write_rec, write_replica, write_stamp, write_u8, write_u16, write_u32,
    write_u64, write_val,
};
use crsm_wire::{WireError, read_control, read_datagram, write_control, write_datagram};
use std::alloc::Global;

/// What is read from the prefix of bytes.
#[derive(Drop)]
pub enum Found {
    /// A value, how many bytes spell it, and those that it is written as.
    Value { length: usize, written: Bytes },
    /// How many records a whole body has.
    Records { count: usize },
    /// No prefix spells a value.
    Nothing,
}

/// What was found, of a value that these bytes spell, by how writing it went.
fn value_of(length: usize, written: Bytes, wrote: Result<(), NoMemory>) -> Result<Found, NoMemory> {
    wrote?;
    Ok(Found::Value { length, written })
}

/// What the reader takes from the prefix of the bytes, and what the writer makes of it. The value is dropped by a
/// function, which keeps its variants out of the proof.
macro_rules! again {
    ($alloc:ident, $bytes:ident, $read:ident, $write:ident) => {
        match $read($alloc, $bytes)? {
            Some((value, length)) => {
                let mut written = Bytes::new($alloc);
                let wrote = $write($alloc, &value, &mut written);
                drop(value);
                value_of(length, written, wrote)
            }
            None => Ok(Found::Nothing),
        }
    };
}

/// What the reader of whole messages makes of the bytes, and what the writer makes of that.
macro_rules! whole_again {
    ($alloc:ident, $bytes:ident, $read:ident, $write:ident) => {
        match $read($alloc, $bytes) {
            Ok(message) => {
                let mut written = Bytes::new($alloc);
                let wrote = $write($alloc, &message, &mut written);
                drop(message);
                value_of($bytes.len(), written, wrote)
            }
            Err(WireError::NotOne) => Ok(Found::Nothing),
            Err(WireError::NoMemory) => Err(NoMemory),
        }
    };
}

/// Reads bytes as a value of this kind, and writes the value again.
pub fn read_again(alloc: Global, kind: Kind, bytes: &[u8]) -> Result<Found, NoMemory> {
    match kind {
        Kind::U8 => again!(alloc, bytes, read_u8, write_u8),
        Kind::U16 => again!(alloc, bytes, read_u16, write_u16),
        Kind::U32 => again!(alloc, bytes, read_u32, write_u32),
        Kind::U64 => again!(alloc, bytes, read_u64, write_u64),
        Kind::Replica => again!(alloc, bytes, read_replica, write_replica),
        Kind::Stamp => again!(alloc, bytes, read_stamp, write_stamp),
        Kind::Ballot => again!(alloc, bytes, read_ballot, write_ballot),
        Kind::OptionStamp => again!(alloc, bytes, read_option_stamp, write_option_stamp),
        _ => long_again(alloc, kind, bytes),
    }
}

/// The kinds of which some values take more bytes than others, beside an optional timestamp.
fn long_again(alloc: Global, kind: Kind, bytes: &[u8]) -> Result<Found, NoMemory> {
    match kind {
        Kind::Key => key_again(alloc, bytes),
        Kind::Val => value_again(alloc, bytes),
        Kind::OptionVal => optional_value_again(alloc, bytes),
        Kind::Op => operation_again(alloc, bytes),
        Kind::Command => command_again(alloc, bytes),
        Kind::Answer => answer_again(alloc, bytes),
        Kind::Outcome => outcome_again(alloc, bytes),
        Kind::Entry => entry_again(alloc, bytes),
        Kind::Entries => entries_again(alloc, bytes),
        Kind::Members => members_again(alloc, bytes),
        Kind::Decision => decision_again(alloc, bytes),
        Kind::OptionVote => optional_vote_again(alloc, bytes),
        Kind::Rec => record_again(alloc, bytes),
        Kind::Body => body_again(alloc, bytes),
        Kind::Datagram => datagram_again(alloc, bytes),
        Kind::Control => control_again(alloc, bytes),
        _ => Ok(Found::Nothing),
    }
}

fn key_again(alloc: Global, bytes: &[u8]) -> Result<Found, NoMemory> {
    again!(alloc, bytes, read_key, write_key)
}

fn value_again(alloc: Global, bytes: &[u8]) -> Result<Found, NoMemory> {
    again!(alloc, bytes, read_val, write_val)
}

fn optional_value_again(alloc: Global, bytes: &[u8]) -> Result<Found, NoMemory> {
    again!(alloc, bytes, read_option_val, write_option_val)
}

fn operation_again(alloc: Global, bytes: &[u8]) -> Result<Found, NoMemory> {
    again!(alloc, bytes, read_op, write_op)
}

fn command_again(alloc: Global, bytes: &[u8]) -> Result<Found, NoMemory> {
    again!(alloc, bytes, read_command, write_command)
}

fn answer_again(alloc: Global, bytes: &[u8]) -> Result<Found, NoMemory> {
    again!(alloc, bytes, read_answer, write_answer)
}

fn outcome_again(alloc: Global, bytes: &[u8]) -> Result<Found, NoMemory> {
    again!(alloc, bytes, read_outcome, write_outcome)
}

fn entry_again(alloc: Global, bytes: &[u8]) -> Result<Found, NoMemory> {
    again!(alloc, bytes, read_entry, write_entry)
}

fn entries_again(alloc: Global, bytes: &[u8]) -> Result<Found, NoMemory> {
    again!(alloc, bytes, read_entries, write_entries)
}

fn members_again(alloc: Global, bytes: &[u8]) -> Result<Found, NoMemory> {
    again!(alloc, bytes, read_members, write_members)
}

fn decision_again(alloc: Global, bytes: &[u8]) -> Result<Found, NoMemory> {
    again!(alloc, bytes, read_decision, write_decision)
}

fn optional_vote_again(alloc: Global, bytes: &[u8]) -> Result<Found, NoMemory> {
    again!(alloc, bytes, read_option_vote, write_option_vote)
}

fn record_again(alloc: Global, bytes: &[u8]) -> Result<Found, NoMemory> {
    again!(alloc, bytes, read_rec, write_rec)
}

/// The records of a whole log body, which are counted and not written.
fn body_again(alloc: Global, bytes: &[u8]) -> Result<Found, NoMemory> {
    match read_recs(alloc, bytes)? {
        Some(recs) => {
            let count = recs.as_slice().len();
            drop(recs);
            Ok(Found::Records { count })
        }
        None => Ok(Found::Nothing),
    }
}

fn datagram_again(alloc: Global, bytes: &[u8]) -> Result<Found, NoMemory> {
    whole_again!(alloc, bytes, read_datagram, write_datagram)
}

fn control_again(alloc: Global, bytes: &[u8]) -> Result<Found, NoMemory> {
    whole_again!(alloc, bytes, read_control, write_control)
}
