//! The errors of a shell.

ghost use Rattle.std.specs.Prelude.{◌≡◌};
ghost use Rattle.crsm_shell.specs.declared.errors.BootError.TheVariants.{NoMemory as BootWithoutMemory};
ghost use Rattle.crsm_shell.specs.declared.errors.TurnError.TheVariants.{NoMemory as TurnWithoutMemory};
ghost use Rattle.crsm_shell.specs.Flushing.{IsOfPut};
ghost use Rattle.crsm_shell.specs.Errors.{is_lasting, keep_failure, mount_failure, put_failure, take_failure};

use crsm_base::NoMemory;
use crsm_log::{MountError, PutError};
use crsm_replica_io::TakeError;
use thiserror::Error;

/// The reason why a replica is not booted.
#[derive(Clone, Copy, Debug, PartialEq, Eq, Error)]
pub enum BootError {
    #[error("the disk failed")]
    DiskFault,
    /// The record of the boot would exceed the limit of a log file.
    #[error("the log is full")]
    LogFull,
    /// The body with this number, from 0, is not a list of records (`why` 0), has a first record that does not fit of
    /// kind `why`, or exceeds the end of the file (`why` 10).
    #[error("body {entry} of the log is bad ({why})")]
    BadLog { entry: u64, why: u32 },
    #[error("out of memory")]
    NoMemory,
}

impl From<NoMemory> for BootError {
    ghost from_gives = { λ _ e. e ≡ BootWithoutMemory };

    fn from(_e: NoMemory) -> BootError {
        BootError::NoMemory
    }
}

impl From<MountError> for BootError {
    ghost from_gives = { λ why e. e ≡ mount_failure why };

    fn from(why: MountError) -> BootError {
        match why {
            MountError::DiskFault => BootError::DiskFault,
            MountError::BadGate { entry } => BootError::BadLog { entry, why: 10 },
            MountError::NoMemory => BootError::NoMemory,
        }
    }
}

impl BootError {
    /// Returns the error of a boot whose records were not put into the log.
    pub(crate) fn of_put(why: TurnError) -> BootError
        requires { IsOfPut why }
        ensures { result ≡ keep_failure why }
    {
        match why {
            TurnError::DiskFault => BootError::DiskFault,
            TurnError::LogFull => BootError::LogFull,
            TurnError::NoMemory => BootError::NoMemory,
            // A put receives nothing, and the log of a boot has not failed.
            TurnError::PortFault | TurnError::Failed => unreachable!(),
        }
    }
}

/// The reason why a step is not taken, or steps are not flushed.
#[derive(Clone, Copy, Debug, PartialEq, Eq, Error)]
pub enum TurnError {
    /// The port failed in a receive. The shell can continue.
    #[error("the port failed")]
    PortFault,
    #[error("the disk failed")]
    DiskFault,
    /// The records would exceed the limit of a log file.
    #[error("the log is full")]
    LogFull,
    /// The shell had failed before.
    #[error("the replica failed before")]
    Failed,
    #[error("out of memory")]
    NoMemory,
}

impl From<NoMemory> for TurnError {
    ghost from_gives = { λ _ e. e ≡ TurnWithoutMemory };

    fn from(_e: NoMemory) -> TurnError {
        TurnError::NoMemory
    }
}

impl From<TakeError> for TurnError {
    ghost from_gives = { λ why e. e ≡ take_failure why };

    fn from(why: TakeError) -> TurnError {
        match why {
            TakeError::PortFault => TurnError::PortFault,
        }
    }
}

impl From<PutError> for TurnError {
    ghost from_gives = { λ why e. e ≡ put_failure why };

    fn from(why: PutError) -> TurnError {
        match why {
            PutError::DiskFault => TurnError::DiskFault,
            PutError::Failed => TurnError::Failed,
            PutError::Full { .. } => TurnError::LogFull,
            PutError::NoMemory => TurnError::NoMemory,
        }
    }
}

impl TurnError {
    /// Returns whether the shell has failed permanently, as after all errors but `PortFault`.
    pub fn is_lasting(self) -> bool
        ensures { result ≡ is_lasting self }
    {
        self != TurnError::PortFault
    }
}
