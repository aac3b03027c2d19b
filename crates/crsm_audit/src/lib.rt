//! The command `audit`: it reads the sheets of several nodes of one cluster, makes an account of each, and writes the
//! verdict on all of them.
#![tactic(auto)]

mod account;
mod command;
mod entries;
mod handling;
mod judging;
mod keeping;
mod line;
mod list;
mod naming;
mod origins;
mod place;
mod sheet;
mod state;
mod text;
mod verdict;

pub use account::Account;
pub use command::{audit, audits_are_exact};
pub use judging::judge;
pub use place::{Dropped, ExecutedEntry};
pub use verdict::Verdict;
