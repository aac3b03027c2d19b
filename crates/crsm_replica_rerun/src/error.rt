//! The errors of replaying a line of a sheet.

ghost use Rattle.std.specs.Prelude.{◌≡◌};

use crsm_base::NoMemory;

/// The reason why a line of a sheet is not replayed.
#[derive(Clone, Copy, Debug, PartialEq, Eq)]
pub enum RerunError {
    /// The line stands at a wrong place: a turn before `open`, or a body or `open` after it.
    Misplaced,
    /// The body with this number before `open`, from 0, is not a list of records (`why` 0), or its first record that
    /// does not fit is of kind `why`.
    BadLog { entry: u64, why: u32 },
    NoMemory,
}

impl From<NoMemory> for RerunError {
    ghost use Rattle.std.specs.Prelude.{◌≡◌};
    ghost use Rattle.crsm_replica_rerun.specs.declared.error.RerunError.TheVariants.{NoMemory as OutOfMemory};

    ghost from_gives = { λ _ e. e ≡ OutOfMemory };

    fn from(_e: NoMemory) -> RerunError {
        RerunError::NoMemory
    }
}
