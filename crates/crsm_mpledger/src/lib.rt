//! The state that the records of a replica's log lead to in the store with a leader (Multi-Paxos): its promise, the
//! values that it has accepted and those that it knows to be chosen at each slot, and the answers of the store to the
//! executed ones. Each record and each log body has one encoding.
#![tactic(auto)]

mod body;
mod by_slot;
mod executions;
mod laws;
mod ledger;
mod readers;
mod rec;
mod recover;
mod reports;
mod value;

pub use body::{put_body, take_body};
pub use executions::Execution;
pub use laws::{executed_slots_grow, executions_are_by_slot};
pub use ledger::MpLedger;
pub use rec::{put_rec, take_rec};
pub use value::{share_command, share_noop};
