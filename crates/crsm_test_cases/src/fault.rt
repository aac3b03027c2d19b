//! Why the program ends early.

use crsm_base::{Failed, NoMemory};
use crsm_text::LineError;
use std::alloc::{AllocError, AllocFailed};
use std::io;
use thiserror::Error;

/// Why the program ends early, or a line leads to nothing.
#[derive(Clone, Copy, Debug, Error)]
pub enum Fault {
    #[error("the input cannot be read, or the output not written")]
    Io,
    #[error("memory ran out")]
    NoMemory,
    #[error("a line or a case is not readable")]
    Unreadable,
    #[error("a heading names no table, or a line stands above the first")]
    NoTable,
    #[error("the disk failed")]
    Disk,
    #[error("more steps are wanted than can pend")]
    TooMany,
}

impl From<io::Error> for Fault {
    fn from(_: io::Error) -> Fault {
        Fault::Io
    }
}

impl From<NoMemory> for Fault {
    fn from(_: NoMemory) -> Fault {
        Fault::NoMemory
    }
}

impl From<AllocError> for Fault {
    fn from(_: AllocError) -> Fault {
        Fault::NoMemory
    }
}

impl<T: Drop> From<AllocFailed<T>> for Fault {
    fn from(_: AllocFailed<T>) -> Fault {
        Fault::NoMemory
    }
}

impl From<Failed> for Fault {
    fn from(_: Failed) -> Fault {
        Fault::Disk
    }
}

impl From<LineError> for Fault {
    fn from(error: LineError) -> Fault {
        match error {
            LineError::Unreadable => Fault::Unreadable,
            LineError::NoMemory => Fault::NoMemory,
        }
    }
}
