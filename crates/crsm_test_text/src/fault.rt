//! Why a row is not read, or a line of an input refused.

use crsm_base::NoMemory;
use crsm_text::LineError;
use std::alloc::{AllocError, AllocFailed};
use thiserror::Error;

/// Why a row is not read, or a line of an input refused.
#[derive(Clone, Copy, Debug, PartialEq, Eq, Error)]
pub enum Fault {
    #[error("unreadable")]
    Unreadable,
    #[error("out of memory")]
    NoMemory,
    #[error("error: no bytes")]
    NoBytes,
    #[error("error: unknown kind")]
    UnknownKind,
    #[error("error: not hexadecimal")]
    NotHexadecimal,
    #[error("no number")]
    NoNumber,
    #[error("no line")]
    NoLine,
}

impl From<NoMemory> for Fault {
    fn from(_: NoMemory) -> Fault {
        Fault::NoMemory
    }
}

impl From<AllocError> for Fault {
    fn from(_: AllocError) -> Fault {
        Fault::NoMemory
    }
}

impl<T: Drop> From<AllocFailed<T>> for Fault {
    fn from(_: AllocFailed<T>) -> Fault {
        Fault::NoMemory
    }
}

impl From<LineError> for Fault {
    fn from(error: LineError) -> Fault {
        match error {
            LineError::Unreadable => Fault::Unreadable,
            LineError::NoMemory => Fault::NoMemory,
        }
    }
}
