//! The sequential store: keys with their values, and the last answer to each client.
#![tactic(auto)]

mod clients;
mod keys;
mod store;
mod stored;

pub use store::Store;
