//! The result of an entry: its index among the executed ones and the store's answer, or that it is dropped.
#![tactic(auto)]

mod answer;
mod dropped;
mod place;
mod replay;
mod told;

pub use answer::{answer_to, has_no_answer};
pub use dropped::has_dropped;
pub use told::executions;
