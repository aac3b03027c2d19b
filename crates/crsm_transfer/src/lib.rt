//! State transfer of executed entries by pages: the request of a replica, its answer, and the entries that it adopts.
#![tactic(auto)]

mod answer;
mod fitting;
mod paging;

pub use answer::Fit;
pub use fitting::fit;
pub use paging::{page, want};
