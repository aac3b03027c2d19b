//! The errors of applying a record and of recovering a log.

use crsm_base::NoMemory;
use thiserror::Error;

/// The reason why a record is not applied or a log is not recovered.
#[derive(Debug, Drop, Error)]
pub enum LedgerError {
    /// A record of this kind may not come next. The kind is the first byte of its encoding.
    #[error("a record of kind {why} does not fit")]
    NotFit { why: u32 },
    /// The log body with this number, from 0, is not a list of records (`why` 0), or its first record that does not fit
    /// is of kind `why`.
    #[error("body {entry} of the log is bad ({why})")]
    BadLog { entry: u64, why: u32 },
    /// Memory ran out.
    #[error("out of memory")]
    NoMemory,
}

impl From<NoMemory> for LedgerError {
    ghost use Rattle.std.specs.Prelude.{◌≡◌};
    ghost use Rattle.crsm_ledger.specs.declared.error.LedgerError.TheVariants.{NoMemory as OutOfMemory};

    ghost from_gives = { λ _ e. e ≡ OutOfMemory };

    fn from(_e: NoMemory) -> LedgerError {
        LedgerError::NoMemory
    }
}
