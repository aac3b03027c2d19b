//! The inputs of a replica.

use crsm_base::{Datagram, Members};

/// The input of one step.
#[derive(Drop)]
pub enum Input {
    /// A datagram from an address, IPv4 x 65,536 + port.
    Datagram { from: u64, datagram: Datagram },
    /// A tick of the clock.
    Tick,
    /// A suspicion or an operator's request: these are to be the members of the next epoch.
    Suspect { members: Members },
}
