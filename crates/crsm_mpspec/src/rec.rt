//! The records of a log.

use crate::shared::SharedValue;
use crsm_base::Ballot;

/// A record of a replica's log.
#[derive(Drop)]
pub enum MpRec {
    /// The replica boots.
    Boot,
    /// The replica promises a ballot.
    Promise {
        ballot: Ballot,
    },
    /// The replica accepts a value at a slot in a ballot, and promises the ballot.
    Accept {
        slot: u64,
        ballot: Ballot,
        value: SharedValue,
    },
    /// The value of a slot is known to be chosen.
    Choose {
        slot: u64,
        value: SharedValue,
    },
}
