//! The replica that the ledger belongs to, and its allocator.

ghost use Rattle.std.specs.Prelude.{◌≡◌, ℕ, List};
ghost use Rattle.crsm_base.specs.declared.Rec.{Rec};
ghost use Rattle.crsm_ledger.specs.Ledger.{LedgerStands, WhereStands};

use crate::ledger::Ledger;
use std::alloc::Global;

impl Ledger {
    /// Returns the allocator of its memory.
    pub fn alloc(&self) -> Global {
        self.alloc
    }

    /// Returns the number of the replica.
    pub fn me(&self) -> u32
        ensures { WhereStands self.now (λ me n log. result ≡ me) }
    {
        self.me
    }

    /// Returns the number of replicas that began the cluster.
    pub fn n(&self) -> u32
        ensures { WhereStands self.now (λ me n log. result ≡ n) }
    {
        self.n
    }
}
