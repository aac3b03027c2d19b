//! The identities of entries.

use crsm_base::Stamp;

/// The identity of an executed entry: its epoch and stamp, with the client and number of its command.
#[derive(Clone, Copy, Debug, PartialEq, Eq)]
pub struct ExecutedEntry {
    pub epoch: u64,
    pub stamp: Stamp,
    pub client: u64,
    pub number: u64,
}

/// A reply in the input that an entry was dropped: its line number, and the entry's epoch and stamp.
#[derive(Clone, Copy, Debug, PartialEq, Eq)]
pub struct Dropped {
    pub line: u64,
    pub epoch: u64,
    pub stamp: Stamp,
}
