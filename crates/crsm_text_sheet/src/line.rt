//! The lines of a sheet.

use crsm_base::{Bytes, Members};

/// A line of a sheet. `reading` is that of the node's clock in the turn, in microseconds since 1970; `address` is IPv4
/// x 65,536 + port.
#[derive(Debug, Drop)]
pub enum SheetLine {
    /// A body of the log that the node found.
    Entry {
        bytes: Bytes,
    },
    /// The log was read to its end, and the boot was recorded.
    Open,
    /// A turn whose input was these bytes from an address, whether they are a datagram or not.
    In {
        reading: u64,
        address: u64,
        bytes: Bytes,
    },
    /// A turn whose input was a tick.
    Tick {
        reading: u64,
    },
    /// A turn whose input was a suspicion: these are to be the members of the next epoch.
    Suspect {
        reading: u64,
        members: Members,
    },
}
