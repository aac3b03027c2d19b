//! Locks over the store, with fencing tokens: which operation a client asks for after it read the key, and the result
//! that is printed for it.
#![tactic(auto)]

mod laws;
mod lock;
mod rule;
mod told;

pub use laws::{asked_are_grants_or_returns, locks_have_one_value};
pub use lock::{Lock, read_lock, write_lock};
pub use rule::{Action, NextStep, Ruling, after_cas, after_get};
pub use told::{Told, print_told};
