//! The encoding of what executed entries lead to, both ways: each history has one encoding, and bytes that are none are
//! refused for a reason.
#![tactic(auto)]

mod client_rows;
mod counts;
mod error;
mod history;
mod key_rows;
mod laws;
mod position;

pub use client_rows::{ClientRow, ClientRows, put_client_row};
pub use error::HistoryError;
pub use history::{History, decode_history, encode_history, put_head};
pub use key_rows::{KeyRow, KeyRows, put_key_row};
pub use laws::{encodings_have_no_fault, histories_have_one_encoding};
pub use position::Position;
