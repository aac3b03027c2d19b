//! The command `soak`: it runs a generated world, and writes a summary.
#![tactic(auto)]

mod counting;
mod running;
mod summary;
mod text;
mod writing;

pub use writing::{SoakEnd, soak};
