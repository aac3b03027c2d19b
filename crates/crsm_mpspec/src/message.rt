//! The messages between replicas, which are values and have no bytes.

use crate::accepts::MpAccepts;
use crate::choices::MpChoices;
use crate::shared::SharedValue;
use crsm_base::Ballot;

/// A message from one replica to another.
pub enum MpMessage {
    /// Asks for a promise of the ballot, and for all values accepted or chosen from a slot on.
    Prep {
        ballot: Ballot,
        start: u64,
    },
    /// Promises the ballot, with the values that the sender has accepted and those that it knows to be chosen.
    Prom {
        ballot: Ballot,
        accepted: MpAccepts,
        chosen: MpChoices,
    },
    /// Refuses: the sender has promised this greater ballot.
    No {
        promised: Ballot,
    },
    /// Asks to accept a value at a slot in the ballot.
    Acc {
        ballot: Ballot,
        slot: u64,
        value: SharedValue,
    },
    /// Votes: the sender has accepted at the slot in this ballot.
    Accd {
        ballot: Ballot,
        slot: u64,
    },
    /// Reports the chosen value of a slot.
    Learn {
        slot: u64,
        value: SharedValue,
    },
    /// Asks for the executed values from a slot on.
    Ask {
        start: u64,
    },
}

// Written by hand, it is one call for the crates above, which would prove a derived one again.
impl Drop for MpMessage {
    fn drop(self) {
        match self {
            MpMessage::Prep {
                ballot: _,
                start: _,
            } => {}
            MpMessage::Prom {
                ballot: _,
                accepted: _,
                chosen: _,
            } => {}
            MpMessage::No { promised: _ } => {}
            MpMessage::Acc {
                ballot: _,
                slot: _,
                value: _,
            } => {}
            MpMessage::Accd { ballot: _, slot: _ } => {}
            MpMessage::Learn { slot: _, value: _ } => {}
            MpMessage::Ask { start: _ } => {}
        }
    }
}
