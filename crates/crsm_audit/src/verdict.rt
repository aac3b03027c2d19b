//! The verdict of an audit.

/// The verdict on sheets: the first of these cases that holds. Sheets and indices of entries are counted from 0.
#[derive(Clone, Copy, Debug, PartialEq, Eq)]
pub enum Verdict {
    /// The executed list of this sheet is not a prefix of the longest one: `place` is the first index at which they
    /// differ.
    List { sheet: u64, place: u64 },
    /// The longest list has an entry at this index that its origin never logged, according to the origin's last sheet.
    Stranger { place: u64 },
    /// A reply at this line of this sheet reports a command as dropped that the longest list has.
    Dropped { sheet: u64, line: u64 },
    /// All sheets agree with the longest list, which has so many entries.
    Agree { count: u64 },
}
