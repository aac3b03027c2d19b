//! Why bytes are refused.

use crsm_base::NoMemory;
use thiserror::Error;

/// The reason why bytes are decoded as no history. A field that is cut short, or that has a value which no such field
/// has, is named by the part of the history in which it stands.
#[derive(Clone, Copy, Debug, PartialEq, Eq, Drop, Error)]
pub enum HistoryError {
    /// They do not begin with a number of executed entries and the position of the last one.
    #[error("the number of entries or the position of the last one is bad")]
    Head,
    /// They count more keys than a store has.
    #[error("there are more than 65536 keys")]
    TooManyKeys,
    /// The number of keys, a key or its value is bad.
    #[error("a key or its value is bad")]
    Keys,
    /// A key is not above the one before it.
    #[error("the keys do not rise")]
    KeyOrder,
    /// They count more clients than a store has.
    #[error("there are more than 65536 clients")]
    TooManyClients,
    /// The number of clients, a client or its answer is bad.
    #[error("a client or its answer is bad")]
    Clients,
    /// A client has two rows.
    #[error("a client is there twice")]
    ClientTwice,
    /// No entry was executed, and there is a last one, a key or a client; or entries were, and there is no last one.
    #[error("the number of entries is not that of what they lead to")]
    Begun,
    /// More bytes follow.
    #[error("bytes follow the history")]
    GoesOn,
    /// Memory ran out.
    #[error("out of memory")]
    NoMemory,
}

impl From<NoMemory> for HistoryError {
    ghost use Rattle.std.specs.Prelude.{◌≡◌};
    ghost use Rattle.crsm_state.specs.declared.error.HistoryError.TheVariants.{NoMemory as OutOfMemory};

    ghost from_gives = { λ _ e. e ≡ OutOfMemory };

    fn from(_e: NoMemory) -> HistoryError {
        HistoryError::NoMemory
    }
}
