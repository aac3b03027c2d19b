//! The inputs of a machine.

use crsm_base::Members;

/// The input of a machine's step.
#[derive(Drop)]
pub enum Arrival<'a> {
    /// Bytes from an address: a replica's number in a world, else IPv4 x 65,536 + port. They need not be the encoding
    /// of a datagram. Those beyond `MAX_DATAGRAM_BYTES` are cut off.
    Bytes { from: u64, bytes: &'a [u8] },
    /// A tick of the clock.
    Tick,
    /// A suspicion: these are to be the members of the next epoch.
    Suspect(Members),
}
