//! Reads tables of cases, makes the devices in memory that each case is run over, and says what a run left on them.
#![tactic(auto)]

mod case;
mod fault;
mod fields;
mod left;
mod table;

pub use case::Case;
pub use fault::Fault;
pub use fields::{parted, sink_of, source_of};
pub use left::left_of;
pub use table::{Table, read_tables};
