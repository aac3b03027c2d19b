//! What the program is asked to do.

use crate::port::Wait;
use crate::rows::Visits;

/// A kind of work on values in memory.
#[derive(Clone, Copy)]
pub enum Work {
    /// Writes a page of entries as bytes.
    Write,
    /// Reads a page of entries from bytes.
    Read,
    /// Applies commands to a store.
    Store(Visits),
    /// Recovers a ledger from a log.
    Ledger,
    /// Collects the reports of 15 replicas.
    Collect,
    /// Receives on a socket.
    Port(Wait),
}

/// Work on a value of some size (entries of a page or of a report, keys and clients of a store, commands of a log, bytes
/// that a receive has room for), done so many times.
#[derive(Clone, Copy)]
pub struct Request {
    pub work: Work,
    pub size: u32,
    pub rounds: u32,
}

impl Work {
    fn named(word: &str) -> Option<Work> {
        match word {
            "write" => Some(Work::Write),
            "read" => Some(Work::Read),
            "store" => Some(Work::Store(Visits::Scattered)),
            "store_in_order" => Some(Work::Store(Visits::InOrder)),
            "ledger" => Some(Work::Ledger),
            "collect" => Some(Work::Collect),
            "empty" => Some(Work::Port(Wait::Empty)),
            "hurried" => Some(Work::Port(Wait::Hurried)),
            "echo" => Some(Work::Port(Wait::Echo)),
            _ => None,
        }
    }
}

impl Request {
    /// The request that three words spell: a kind of work and two decimal numbers.
    pub fn read(work: &str, size: &str, rounds: &str) -> Option<Request> {
        Some(Request {
            work: Work::named(work)?,
            size: size.parse::<u32>().ok()?,
            rounds: rounds.parse::<u32>().ok()?,
        })
    }
}
