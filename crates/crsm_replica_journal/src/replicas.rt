//! A set of replicas.

use std::fmt::{self, Display, Formatter, Write};

/// A set of replica numbers, 0 to 14, as one bit each.
#[derive(Clone, Copy, Debug, PartialEq, Eq)]
pub struct Replicas {
    bits: u16,
}

/// Returns the bit of a replica, and 0 for a number above 14.
fn bit(k: u32) -> u16 {
    if k < 15 { 1 << k } else { 0 }
}

impl Replicas {
    /// Returns the empty set.
    pub fn none() -> Replicas {
        Replicas { bits: 0 }
    }

    /// Returns the set of these numbers.
    pub fn of(numbers: &[u32]) -> Replicas {
        let mut bits = 0;
        for k in numbers {
            bits |= bit(*k);
        }
        Replicas { bits }
    }

    /// Returns whether the replica is in the set.
    pub fn has(self, k: u32) -> bool {
        self.bits & bit(k) != 0
    }

    /// Returns the set with this replica.
    pub(crate) fn with(self, k: u32) -> Replicas {
        Replicas {
            bits: self.bits | bit(k),
        }
    }

    /// Returns the set without this replica.
    pub(crate) fn without(self, k: u32) -> Replicas {
        Replicas {
            bits: self.bits & !bit(k),
        }
    }

    /// Returns those that are not in the other set.
    pub(crate) fn outside(self, other: Replicas) -> Replicas {
        Replicas {
            bits: self.bits & !other.bits,
        }
    }
}

/// Writes the numbers with commas between, and `none` for the empty set.
impl Display for Replicas {
    fn fmt<W: Write>(&self, f: &mut Formatter<W>) -> fmt::Result {
        if self.bits == 0 {
            return f.write_str("none");
        }
        let mut is_first = true;
        for k in 0..15 {
            if self.has(k) {
                if !is_first {
                    f.write_str(",")?;
                }
                write!(f, "{k}")?;
                is_first = false;
            }
        }
        Ok(())
    }
}
