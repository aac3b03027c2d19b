//! The number of replicas that a cluster begins with.

ghost use Rattle.std.specs.Prelude.{◌≡◌, ◌≤◌};

/// The number of replicas that a cluster began with.
#[derive(Clone, Copy)]
pub(crate) struct Founders {
    count: u32,
    ghost some: { 1 ≤ count },
    ghost most: { count ≤ 15 },
}

impl Founders {
    /// Returns the founders of a cluster of `count` replicas.
    pub fn new(count: u32) -> Founders
        requires some { 1 ≤ count }
        requires most { count ≤ 15 }
        ensures { result.count ≡ count }
    {
        Founders { count }
    }

    /// Returns the number of the founders.
    pub fn count(self) -> u32
        ensures count { result ≡ self.count }
        ensures some { 1 ≤ result }
        ensures most { result ≤ 15 }
    {
        self.count
    }
}
