//! The ending of a dump.

ghost use Rattle.std.specs.Prelude.{◌≡◌};
ghost use Rattle.crsm_cmd_dump.specs.declared.ending.DumpEnd.TheVariants.{NoMemory as EndNoMemory, ReadFault as EndReadFault};
ghost use Rattle.crsm_cmd_dump.specs.Ending.{end_of, end_of_claim, end_of_mount};

use crsm_base::{Failed, NoMemory};
use crsm_ledger::LedgerError;
use crsm_log::{ClaimError, MountError};
use std::alloc::AllocError;

/// The ending of a dump.
#[derive(Clone, Copy, Debug, PartialEq, Eq)]
pub enum DumpEnd {
    /// The log was read, and its text was written.
    Done,
    /// The log body with this number, from 0, is the first that is not a list of records (`why` 0), or has a first
    /// record that does not fit of kind `why` (1 to 9), or is missing after an open gate (`why` 10).
    BadLog { entry: u64, why: u32 },
    /// A read failed.
    ReadFault,
    /// A write failed.
    WriteFault,
    /// Memory ran out.
    NoMemory,
    /// The input is longer than the longest log file.
    LogTooLong,
}

/// The reason that stands for a body that is missing after an open gate.
const MISSING: u32 = 10;

impl From<Failed> for DumpEnd {
    ghost from_gives = { λ _ e. e ≡ EndReadFault };

    fn from(_: Failed) -> Self {
        DumpEnd::ReadFault
    }
}

impl From<NoMemory> for DumpEnd {
    ghost from_gives = { λ _ e. e ≡ EndNoMemory };

    fn from(_: NoMemory) -> Self {
        DumpEnd::NoMemory
    }
}

impl From<AllocError> for DumpEnd {
    ghost from_gives = { λ _ e. e ≡ EndNoMemory };

    fn from(_: AllocError) -> Self {
        DumpEnd::NoMemory
    }
}

impl From<LedgerError> for DumpEnd {
    ghost from_gives = { λ why e. e ≡ end_of why };

    fn from(error: LedgerError) -> Self {
        match error {
            LedgerError::BadLog { entry, why } => DumpEnd::BadLog { entry, why },
            LedgerError::NotFit { .. } | LedgerError::NoMemory => DumpEnd::NoMemory,
        }
    }
}

impl From<ClaimError> for DumpEnd {
    ghost from_gives = { λ why e. e ≡ end_of_claim why };

    fn from(error: ClaimError) -> Self {
        match error {
            ClaimError::BadGate { entry } => DumpEnd::BadLog {
                entry,
                why: MISSING,
            },
            ClaimError::NoMemory => DumpEnd::NoMemory,
            // The disk is memory, and a claim for cluster 0 is met by another cluster at most.
            ClaimError::DiskFault | ClaimError::OtherCluster { .. } | ClaimError::Full { .. } => {
                DumpEnd::NoMemory
            }
        }
    }
}

impl From<MountError> for DumpEnd {
    ghost from_gives = { λ why e. e ≡ end_of_mount why };

    fn from(error: MountError) -> Self {
        match error {
            MountError::BadGate { entry } => DumpEnd::BadLog {
                entry,
                why: MISSING,
            },
            // The disk is memory, which does not fail.
            MountError::NoMemory | MountError::DiskFault => DumpEnd::NoMemory,
        }
    }
}
