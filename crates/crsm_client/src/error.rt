//! The errors of a client.

use crsm_base::NoMemory;

/// The reason why a command has no outcome.
#[derive(Clone, Copy, Debug, PartialEq, Eq)]
pub enum AskError {
    /// No reply came in all turns.
    NoAnswer,
    /// The port failed in a send or in a receive.
    PortFault,
    NoMemory,
}

impl From<NoMemory> for AskError {
    ghost use Rattle.std.specs.Prelude.{◌≡◌};
    ghost use Rattle.crsm_client.specs.declared.error.AskError.TheVariants as errors;

    ghost from_gives = { λ _ e. e ≡ errors.NoMemory };

    fn from(_e: NoMemory) -> AskError {
        AskError::NoMemory
    }
}

/// The reason why a membership change was not requested.
#[derive(Clone, Copy, Debug, PartialEq, Eq)]
pub enum OperateError {
    /// The port failed in the send.
    PortFault,
    NoMemory,
}

impl From<NoMemory> for OperateError {
    ghost use Rattle.std.specs.Prelude.{◌≡◌};
    ghost use Rattle.crsm_client.specs.declared.error.OperateError.TheVariants as errors;

    ghost from_gives = { λ _ e. e ≡ errors.NoMemory };

    fn from(_e: NoMemory) -> OperateError {
        OperateError::NoMemory
    }
}
