//! A running node: it boots a replica on its log, takes turn after turn, flushes them in groups, and writes its sheet.
#![tactic(auto)]

mod errors;
mod keep;
mod opening;
mod order;
mod pending;
mod report;
mod run;
mod serving;
mod take;

pub use errors::{NodeEnd, NodeError};
pub use order::NodeOrder;
pub use report::{BootReport, Reporter, Silent};
pub use run::run_node;
pub use serving::serve;
