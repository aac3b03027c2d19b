//! The result of comparing a page of executed entries with a ledger.

use crsm_base::Entries;

/// How a page of executed entries compares with a ledger.
#[derive(Drop)]
pub enum Fit {
    /// The sender of the page knows a later epoch.
    Ahead,
    /// The page begins after the end of the executed entries.
    Gap,
    /// The page has no new entry that may be executed, or the replica takes part in its epoch and adopts no page.
    Nothing,
    /// These entries follow the executed ones.
    Adopt(Entries),
}
