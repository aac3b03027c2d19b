//! The parts of a dump.

/// What is written of a log.
#[derive(Clone, Copy, Debug, PartialEq, Eq)]
pub enum Part {
    /// The state of the replica, the keys of the store and its clients.
    All,
    /// The state of the replica and the clients of the store, without the keys.
    State,
    /// The keys of the store alone.
    Keys,
}
