//! The errors and the ends of a node.

ghost use Rattle.std.specs.Prelude.{◌≡◌, true, false};
ghost use Rattle.crsm_node.specs.declared.errors.NodeEnd.TheVariants.{NoMemory as EndWithoutMemory};
ghost use Rattle.crsm_node.specs.declared.errors.NodeError.TheVariants.{NoMemory as TurnsWithoutMemory};
ghost use Rattle.crsm_node.specs.Errors.{boot_end, claim_end, turn_failure};

use crsm_base::NoMemory;
use crsm_log::ClaimError;
use crsm_shell::{BootError, TurnError};
use thiserror::Error;

/// The reason why a node stops before its last turn.
#[derive(Clone, Copy, Debug, PartialEq, Eq, Error)]
pub enum NodeError {
    /// The port failed in a receive. The pending turns are durable, and their lines are written.
    #[error("the port failed")]
    PortFault,
    /// The disk failed. The last group is durable or lost as a whole, and none of its datagrams was sent.
    #[error("the disk failed")]
    DiskFault,
    /// The records of the last group would exceed the limit of a log file.
    #[error("the log is full")]
    LogFull,
    /// The sheet failed. All turns are durable.
    #[error("the sheet cannot be written")]
    WriteFault,
    /// The shell had failed before.
    #[error("the replica failed before")]
    Failed,
    #[error("out of memory")]
    NoMemory,
}

impl From<NoMemory> for NodeError {
    ghost from_gives = { λ _ e. e ≡ TurnsWithoutMemory };

    fn from(_: NoMemory) -> NodeError {
        NodeError::NoMemory
    }
}

impl From<TurnError> for NodeError {
    ghost from_gives = { λ why e. e ≡ turn_failure why };

    fn from(why: TurnError) -> NodeError {
        match why {
            TurnError::PortFault => NodeError::PortFault,
            TurnError::DiskFault => NodeError::DiskFault,
            TurnError::LogFull => NodeError::LogFull,
            TurnError::Failed => NodeError::Failed,
            TurnError::NoMemory => NodeError::NoMemory,
        }
    }
}

impl NodeError {
    /// Returns whether the port failed, so that the turns before it can be flushed.
    pub(crate) fn is_port_fault(self) -> bool
        ensures yes { result ≡ true → self ≡ NodeError.PortFault }
        ensures no { result ≡ false → self ≡ NodeError.PortFault → ⊥ }
    {
        matches!(self, NodeError::PortFault)
    }
}

/// The end of a node's run.
#[derive(Clone, Copy, Debug, PartialEq, Eq)]
pub enum NodeEnd {
    /// All turns were taken.
    Done,
    /// The port failed in a receive.
    PortFault,
    /// The disk failed.
    DiskFault,
    /// The next entry would exceed the limit of a log file.
    LogFull,
    /// The sheet cannot be written.
    WriteFault,
    /// The body with this number, from 0, is not a list of records (`why` 0), has a first record that does not fit of
    /// kind `why`, or is missing after an open gate (`why` 10).
    BadLog { entry: u64, why: u32 },
    /// The log belongs to the cluster with the number `found`.
    OtherCluster { found: u64 },
    NoMemory,
}

impl From<NoMemory> for NodeEnd {
    ghost from_gives = { λ _ e. e ≡ EndWithoutMemory };

    fn from(_: NoMemory) -> NodeEnd {
        NodeEnd::NoMemory
    }
}

impl From<ClaimError> for NodeEnd {
    ghost from_gives = { λ why e. e ≡ claim_end why };

    fn from(why: ClaimError) -> NodeEnd {
        match why {
            ClaimError::DiskFault => NodeEnd::DiskFault,
            ClaimError::BadGate { entry } => NodeEnd::BadLog { entry, why: 10 },
            ClaimError::OtherCluster { found } => NodeEnd::OtherCluster { found },
            ClaimError::Full { .. } => NodeEnd::LogFull,
            ClaimError::NoMemory => NodeEnd::NoMemory,
        }
    }
}

impl From<BootError> for NodeEnd {
    ghost from_gives = { λ why e. e ≡ boot_end why };

    fn from(why: BootError) -> NodeEnd {
        match why {
            BootError::DiskFault => NodeEnd::DiskFault,
            BootError::LogFull => NodeEnd::LogFull,
            BootError::BadLog { entry, why } => NodeEnd::BadLog { entry, why },
            BootError::NoMemory => NodeEnd::NoMemory,
        }
    }
}
