//! The errors of parsing a line or a word.

ghost use Rattle.std.specs.Prelude.{◌≡◌};

use crsm_base::NoMemory;
use hex::FromHexError;
use std::alloc::{AllocError, AllocFailed};

/// The reason why a line or a word could not be parsed.
#[derive(Clone, Copy, Debug, PartialEq, Eq)]
pub enum LineError {
    /// It does not match its grammar, or a number is out of range.
    Unreadable,
    /// Memory ran out.
    NoMemory,
}

impl From<NoMemory> for LineError {
    ghost use Rattle.std.specs.Prelude.{◌≡◌};
    ghost use Rattle.crsm_text.specs.declared.error.LineError.TheVariants.{NoMemory as OutOfMemory};

    ghost from_gives = { λ _ e. e ≡ OutOfMemory };

    fn from(_e: NoMemory) -> LineError {
        LineError::NoMemory
    }
}

impl From<AllocError> for LineError {
    ghost use Rattle.std.specs.Prelude.{◌≡◌};
    ghost use Rattle.crsm_text.specs.declared.error.LineError.TheVariants.{NoMemory as OutOfMemory};

    ghost from_gives = { λ _ e. e ≡ OutOfMemory };

    fn from(_e: AllocError) -> LineError {
        LineError::NoMemory
    }
}

impl<T: Drop> From<AllocFailed<T>> for LineError {
    ghost use Rattle.std.specs.Prelude.{◌≡◌};
    ghost use Rattle.crsm_text.specs.declared.error.LineError.TheVariants.{NoMemory as OutOfMemory};

    ghost from_gives = { λ _ e. e ≡ OutOfMemory };

    fn from(_e: AllocFailed<T>) -> LineError {
        LineError::NoMemory
    }
}

/// Converts an error of the hexadecimal decoder.
pub(crate) fn refusal(error: FromHexError) -> LineError
    ensures { error ≡ FromHexError.OutOfMemory → result ≡ LineError.NoMemory }
{
    match error {
        FromHexError::OutOfMemory => LineError::NoMemory,
        _ => LineError::Unreadable,
    }
}
