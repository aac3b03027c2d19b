//! The process: its words, the real devices that they need, and its exit status.
#![tactic(auto)]

mod devices;
mod entry;
mod replica;
mod streams;

pub use entry::start;
