//! A replica in a simulated world: up, or down with the content of its disk.
#![tactic(auto)]

mod arrival;
mod cut;
mod fixed_clock;
mod laws;
mod machine;
mod packet_port;
mod readers;
mod sink_port;
mod start;
mod state;
mod step;
mod stop;
mod stopped;
mod take;
mod turn;

pub use arrival::Arrival;
pub use laws::{boots_are_quiet, datagrams_are_short, machines_pend_nothing};
pub use machine::Machine;
pub use step::{Boot, Step};
