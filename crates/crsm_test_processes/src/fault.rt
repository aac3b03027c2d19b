//! Why the trial ends early.

use crsm_base::NoMemory;
use std::alloc::{AllocError, AllocFailed};
use std::io;
use thiserror::Error;

/// Why the trial ends early.
#[derive(Clone, Copy, Debug, Error)]
pub enum Fault {
    #[error("a process, a socket, a file or the output failed")]
    Io,
    #[error("a socket has no address of IPv4")]
    NoAddress,
    #[error("what was replayed is no text")]
    NoText,
    #[error("memory ran out")]
    NoMemory,
}

impl From<io::Error> for Fault {
    fn from(_: io::Error) -> Fault {
        Fault::Io
    }
}

impl From<AllocError> for Fault {
    fn from(_: AllocError) -> Fault {
        Fault::NoMemory
    }
}

impl<T: Drop> From<AllocFailed<T>> for Fault {
    fn from(_: AllocFailed<T>) -> Fault {
        Fault::NoMemory
    }
}

impl From<NoMemory> for Fault {
    fn from(_: NoMemory) -> Fault {
        Fault::NoMemory
    }
}
