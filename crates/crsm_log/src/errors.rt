//! The errors of a log.

ghost use Rattle.std.specs.Prelude.{◌≡◌};
ghost use Rattle.crsm_log.specs.declared.errors.MountError.TheVariants.{DiskFault as MountFault, NoMemory as MountNoMemory};
ghost use Rattle.crsm_log.specs.declared.errors.ClaimError.TheVariants as claims;
ghost use Rattle.crsm_log.specs.Errors.{claim_error};
ghost use Rattle.crsm_log.specs.declared.errors.PutError.TheVariants.{NoMemory as PutNoMemory};

use crsm_base::{Failed, NoMemory};
use std::alloc::AllocError;
use thiserror::Error;

/// The reason why a disk could not be mounted.
#[derive(Clone, Copy, Debug, PartialEq, Eq, Error)]
pub enum MountError {
    #[error("the disk failed")]
    DiskFault,
    /// An open gate has no entry after it; `entry` is the number of bodies before it.
    #[error("no entry stands behind the open gate behind {entry} bodies")]
    BadGate { entry: u64 },
    #[error("memory ran out")]
    NoMemory,
}

impl From<Failed> for MountError {
    ghost from_gives = { λ _ e. e ≡ MountFault };

    fn from(_: Failed) -> Self {
        MountError::DiskFault
    }
}

impl From<NoMemory> for MountError {
    ghost from_gives = { λ _ e. e ≡ MountNoMemory };

    fn from(_: NoMemory) -> Self {
        MountError::NoMemory
    }
}

impl From<AllocError> for MountError {
    ghost from_gives = { λ _ e. e ≡ MountNoMemory };

    fn from(_: AllocError) -> Self {
        MountError::NoMemory
    }
}

/// The reason why a body was not written.
#[derive(Clone, Copy, Debug, PartialEq, Eq, Error)]
pub enum PutError {
    #[error("the disk failed")]
    DiskFault,
    /// An earlier call of this log met a fault of the disk, so nothing was called.
    #[error("the disk failed before")]
    Failed,
    /// The entry would end at this offset, past the limit.
    #[error("the log would end at {end}, past its limit")]
    Full { end: u64 },
    #[error("memory ran out")]
    NoMemory,
}

impl From<NoMemory> for PutError {
    ghost from_gives = { λ _ e. e ≡ PutNoMemory };

    fn from(_: NoMemory) -> Self {
        PutError::NoMemory
    }
}

/// The reason why a log was not claimed for a cluster.
#[derive(Clone, Copy, Debug, PartialEq, Eq, Error)]
pub enum ClaimError {
    #[error("the disk failed")]
    DiskFault,
    /// An open gate has no entry after it; `entry` is the number of bodies before it.
    #[error("no entry stands behind the open gate behind {entry} bodies")]
    BadGate { entry: u64 },
    /// The log belongs to the cluster with this number.
    #[error("the log belongs to cluster {found}")]
    OtherCluster { found: u64 },
    /// The cluster entry would end at this offset, past the limit.
    #[error("the log would end at {end}, past its limit")]
    Full { end: u64 },
    #[error("memory ran out")]
    NoMemory,
}

impl From<MountError> for ClaimError {
    ghost from_gives = { λ why e. e ≡ claim_error why };

    fn from(why: MountError) -> Self {
        match why {
            MountError::DiskFault => ClaimError::DiskFault,
            MountError::BadGate { entry } => ClaimError::BadGate { entry },
            MountError::NoMemory => ClaimError::NoMemory,
        }
    }
}

impl From<Failed> for ClaimError {
    ghost from_gives = { λ _ e. e ≡ claims.DiskFault };

    fn from(_: Failed) -> Self {
        ClaimError::DiskFault
    }
}
