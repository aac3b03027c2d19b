//! The state that the records of a log lead to: the known epoch, its entries, the executed entries and the promises.
#![tactic(auto)]

mod checks;
mod entries;
mod error;
mod fields;
mod follow;
mod held;
mod history;
mod kept;
mod ledger;
mod logged;
mod owner;
mod recover;
mod spelt;
mod steps;
mod taken;

pub use error::LedgerError;
pub use ledger::Ledger;
