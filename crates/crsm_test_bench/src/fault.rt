//! Why the program ends early.

use crsm_base::NoMemory;
use crsm_ledger::LedgerError;
use crsm_wire::WireError;
use std::alloc::AllocFailed;
use std::io;
use thiserror::Error;

/// Why the program ends early.
#[derive(Debug, Drop, Error)]
pub enum Fault {
    #[error("the arguments cannot be read, the socket not bound, or the output not written: {0}")]
    Io(io::Error),
    #[error("memory ran out")]
    NoMemory,
    #[error("a page of so many entries has no spelling")]
    NoPage,
    #[error("the log is refused")]
    BadLog,
    #[error("the socket failed")]
    Port,
    #[error("the socket has no address of IPv4")]
    NoAddress,
}

impl From<io::Error> for Fault {
    fn from(error: io::Error) -> Fault {
        Fault::Io(error)
    }
}

impl From<NoMemory> for Fault {
    fn from(_: NoMemory) -> Fault {
        Fault::NoMemory
    }
}

impl<T: Drop> From<AllocFailed<T>> for Fault {
    fn from(_: AllocFailed<T>) -> Fault {
        Fault::NoMemory
    }
}

impl From<LedgerError> for Fault {
    fn from(error: LedgerError) -> Fault {
        match error {
            LedgerError::NoMemory => Fault::NoMemory,
            _ => Fault::BadLog,
        }
    }
}

impl From<WireError> for Fault {
    fn from(error: WireError) -> Fault {
        match error {
            WireError::NotOne => Fault::NoPage,
            WireError::NoMemory => Fault::NoMemory,
        }
    }
}
